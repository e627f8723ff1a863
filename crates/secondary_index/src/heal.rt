// An entry whose pointer is healed.
ghost use Rattle.std.specs.Prelude.{◌≡◌, IfOk, OnErr, IsErrOf, IsTrue};
ghost use Rattle.hal_base.specs.ShelfCalls.{SameShelf};
ghost use Rattle.keyed_sets.specs.Calls.{IsOpened, StaysOpen, Writes};
ghost use Rattle.secondary_index.specs.Changes.{Heals};

use crate::Psindex;
use eps_pointers::{bytes_read_back, write_home};
use hal_base::{PageFault, Shelf};
use keyed_sets::{a_row_is_put_over_another, rows_rise};

impl Psindex {
    /// Gives the pointer of the entry of this key another number and address, and says whether there is such an entry. It
    /// needs no block.
    pub fn heal<H: Shelf>(
        &mut self,
        shelf: &mut H,
        key: &[u8],
        number: u16,
        addr: u32,
    ) -> Result<bool, PageFault>
        requires live { IsTrue (H.seen shelf.old).live }
        requires opened { IsOpened self.old.rows (H.seen shelf.old) }
        ensures healed { IfOk result (Heals self.old.rows key.now number addr (H.seen shelf.old) (H.seen shelf.new)) }
        ensures opened { StaysOpen self.old.rows self.new.rows (H.seen shelf.new) }
        ensures target { self.new.target ≡ self.old.target }
        ensures leaves { Writes self.old.rows (H.steady shelf.old shelf.new) (IsErrOf result PageFault.Failed) (H.seen shelf.old) (H.seen shelf.new) }
        ensures fails { OnErr result (SameShelf (H.seen shelf.old) (H.seen shelf.new)) × (IsErrOf result PageFault.NoRoom → ⊥) }
    {
        rows_rise();
        a_row_is_put_over_another();
        bytes_read_back();
        self.rows
            .overwrite(shelf, key, 2, &write_home(number, addr))
    }
}
