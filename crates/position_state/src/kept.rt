// What a change leaves of a session that another session made.
ghost use Rattle.std.specs.Prelude.{◌≡◌, true, false, None, IfOk, IsErrOf, IsTrue};
ghost use Rattle.std.specs.Option.{ForSome, option_map_or};
ghost use Rattle.hal_schema.specs.Row.{is_new_name};
ghost use Rattle.position_state.specs.declared.session.Anchor.TheVariants.{At};
ghost use Rattle.position_state.specs.declared.spot.Change.TheVariants.{Delete};
ghost use Rattle.position_state.specs.Looks.{stands_in};
ghost use Rattle.position_state.specs.AfterChange.{AreOfList, AreUnder, IsAnchorLeft, IsCut, IsLeft, IsPlaceLeft, LooksUpTo};
ghost use Rattle.position_state.specs.AfterChange.{is_near, is_row_at, is_touched, let_go, level_at, looks_at, looks_for, looks_for_anchor, looks_for_place};

use crate::elements::is_same_name;
use crate::{Anchor, Change, Session, Walk, WalkFault};
use hal_base::{Ilk, Key, Memory};
use hal_schema::Schema;

impl Session {
    /// What the change of another session leaves of this one, which stays as it is, also after a fault. It is asked
    /// before the change is made, of a walk over the list as it still is, by whose schema the change was decided. Only a
    /// deletion looks, and only where this session has its position, its hold or its parentage in the record in which it
    /// deletes. It is for sessions that see the database in hierarchic sequence.
    pub fn after_change<W: Walk>(
        &self,
        schema: &Schema,
        change: &Change,
        walk: &mut W,
    ) -> Result<Session, WalkFault>
        requires live { IsTrue (W.seen walk.old).live }
        requires plain { self.now.index ≡ None }
        requires schema { (W.seen walk.old).schema ≡ schema.now }
        requires of_list { AreOfList (W.seen walk.old) change.now self.now }
        ensures left { IfOk result (IsLeft (W.seen walk.old) change.now self.now) }
        ensures looked { LooksUpTo (looks_for (W.seen walk.old) change.now self.now) (IsErrOf result WalkFault.Failed) (W.seen walk.old) (W.seen walk.new) }
        ensures untouched { is_touched change.now self.now ≡ false → W.seen walk.new ≡ W.seen walk.old }
    {
        match change {
            Change::Delete { name, root } => self.after_delete(name, root, walk),
            Change::Replace { name, .. } => Ok(self.after_replace(name)?),
            Change::Nothing | Change::Insert { .. } | Change::Heal { .. } => Ok(self.copy()?),
        }
    }

    fn after_replace(&self, name: &Ilk) -> Result<Session, Memory>
        ensures { IfOk result (λ session. session ≡ record self.now { held = let_go name.now self.now.held }) }
    {
        let mut session = self.copy()?;
        if let Some(at) = &self.held
            && is_row_at(name, at)
        {
            session.held = None;
        }
        Ok(session)
    }

    fn after_delete<W: Walk>(
        &self,
        name: &Ilk,
        root: &Key,
        walk: &mut W,
    ) -> Result<Session, WalkFault>
        requires live { IsTrue (W.seen walk.old).live }
        requires plain { self.now.index ≡ None }
        requires of_list { AreOfList (W.seen walk.old) (Delete name.now root.now) self.now }
        ensures left { IfOk result (IsLeft (W.seen walk.old) (Delete name.now root.now) self.now) }
        ensures looked { LooksUpTo (looks_for (W.seen walk.old) (Delete name.now root.now) self.now)
            (IsErrOf result WalkFault.Failed) (W.seen walk.old) (W.seen walk.new) }
        ensures untouched { is_touched (Delete name.now root.now) self.now ≡ false → W.seen walk.new ≡ W.seen walk.old }
    {
        let anchor = anchor_left(walk, name, root, &self.anchor)?;
        let held = place_left(walk, name, root, &self.held)?;
        let parent = place_left(walk, name, root, &self.parent)?;
        Ok(Session {
            options: self.options.copy()?,
            index: self.index,
            anchor,
            held,
            parent,
        })
    }
}

/// The position that a deletion leaves.
fn anchor_left<W: Walk>(
    walk: &mut W,
    name: &Ilk,
    root: &Key,
    at: &Anchor,
) -> Result<Anchor, WalkFault>
    requires live { IsTrue (W.seen walk.old).live }
    requires there { IsTrue (stands_in (W.seen walk.old) None at.now) }
    requires under { AreUnder (W.seen walk.old) name.now root.now at.now }
    ensures left { IfOk result (IsAnchorLeft (W.seen walk.old) name.now at.now) }
    ensures looked { LooksUpTo (looks_for_anchor (W.seen walk.old) root.now at.now) (IsErrOf result WalkFault.Failed) (W.seen walk.old) (W.seen walk.new) }
    ensures untouched { is_near root.now at.now ≡ false → W.seen walk.new ≡ W.seen walk.old }
{
    if !is_cut(walk, name, root, at)? {
        return Ok(at.copy()?);
    }
    let row = row_place(name, root)?;
    match walk.before(None, &row)? {
        None => Ok(Anchor::Front),
        Some(spot) => Ok(spot.at),
    }
}

/// The hold or the parentage that a deletion leaves.
fn place_left<W: Walk>(
    walk: &mut W,
    name: &Ilk,
    root: &Key,
    place: &Option<Anchor>,
) -> Result<Option<Anchor>, WalkFault>
    requires live { IsTrue (W.seen walk.old).live }
    requires under { ForSome place.now (λ at. AreUnder (W.seen walk.old) name.now root.now at) }
    ensures left { IfOk result (IsPlaceLeft (W.seen walk.old) name.now place.now) }
    ensures looked { LooksUpTo (looks_for_place (W.seen walk.old) root.now place.now) (IsErrOf result WalkFault.Failed) (W.seen walk.old) (W.seen walk.new) }
    ensures untouched { option_map_or (is_near root.now) place.now false ≡ false → W.seen walk.new ≡ W.seen walk.old }
{
    match place {
        None => Ok(None),
        Some(at) => {
            if is_cut(walk, name, root, at)? {
                Ok(None)
            } else {
                Ok(Some(at.copy()?))
            }
        }
    }
}

/// The place of a row in the plain view.
fn row_place(name: &Ilk, root: &Key) -> Result<Anchor, Memory>
    ensures { IfOk result (λ at. at ≡ At name.now root.now None) }
{
    Ok(Anchor::At {
        name: *name,
        root: root.copy()?,
        entry: None,
    })
}

/// Whether a place is at a row that is deleted, or below it.
fn is_cut<W: Walk>(walk: &mut W, name: &Ilk, root: &Key, at: &Anchor) -> Result<bool, WalkFault>
    requires live { IsTrue (W.seen walk.old).live }
    requires under { AreUnder (W.seen walk.old) name.now root.now at.now }
    ensures cut { IfOk result (IsCut (W.seen walk.old) name.now at.now) }
    ensures near { IfOk result (λ cut. cut ≡ true → is_near root.now at.now ≡ true) }
    ensures looked { LooksUpTo (looks_at (W.seen walk.old) root.now at.now) (IsErrOf result WalkFault.Failed) (W.seen walk.old) (W.seen walk.new) }
    ensures untouched { is_near root.now at.now ≡ false → W.seen walk.new ≡ W.seen walk.old }
{
    match at {
        Anchor::Front => Ok(false),
        Anchor::At {
            name: other,
            root: key,
            ..
        } => {
            if key != root {
                return Ok(false);
            }
            if is_row_at(name, at) {
                return Ok(true);
            }
            is_below(walk, name, other, key)
        }
    }
}

/// Whether the path to a row leads over another row: by the row's element, and those above it one by one.
fn is_below<W: Walk>(walk: &mut W, name: &Ilk, other: &Ilk, key: &Key) -> Result<bool, WalkFault>
    requires live { IsTrue (W.seen walk.old).live }
    requires there { IsTrue (stands_in (W.seen walk.old) None (At other.now key.now None)) }
    requires row { ForSome (W.seen walk.old).forest (λ rows. is_new_name rows name.now ≡ false) }
    requires apart { is_row_at name.now (At other.now key.now None) ≡ false }
    ensures cut { IfOk result (IsCut (W.seen walk.old) name.now (At other.now key.now None)) }
    ensures looked { LooksUpTo (level_at (W.seen walk.old) (At other.now key.now None)) (IsErrOf result WalkFault.Failed) (W.seen walk.old) (W.seen walk.new) }
{
    let at = row_place(other, key)?;
    let Some(mut spot) = walk.here(None, &at)? else {
        return Ok(false);
    };
    let level = spot.level;
    for _step in 1..level {
        let Some(above) = walk.above(None, &spot)? else {
            return Ok(false);
        };
        if is_row_at(name, &above.at) {
            return Ok(true);
        }
        spot = above;
    }
    Ok(false)
}

fn is_row_at(name: &Ilk, at: &Anchor) -> bool
    ensures { result ≡ is_row_at name.now at.now }
{
    match at {
        Anchor::Front => false,
        Anchor::At { name: other, .. } => is_same_name(name, other),
    }
}
