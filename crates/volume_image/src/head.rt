// Heads of data blocks, and whether a block is free or live.
ghost use Rattle.std.specs.Prelude.{◌≡◌, ◌+◌, ◌==◌, nat_lt, ◌&&◌, length, replicate, slice_range};
ghost use Rattle.std.specs.List.{list_any};
ghost use Rattle.std.specs.Str.{bytes_eq};
ghost use Rattle.volume_image.specs.Header.{kind_in, set_in, page_in, has_cells, is_of_side, other_side, has_set, is_of, is_index_set, is_live_set, leaves_behind, is_left, is_free, is_live, says_no_more, has_next_set};

use hal_base::{BLOCK, PartState, SetId, get16};

/// The first eight bytes of a data block.
#[derive(Clone, Copy, Debug, PartialEq, Eq)]
pub struct Head {
    pub kind: u8,
    pub set: SetId,
    pub page: u16,
}

pub fn head_of(block: &[u8; BLOCK]) -> Head
    ensures kind { result.kind ≡ kind_in block.now }
    ensures set { result.set ≡ set_in block.now }
    ensures page { result.page ≡ page_in block.now }
{
    Head {
        kind: block[0],
        set: SetId {
            part: get16(block, 2),
            number: get16(block, 4),
            letter: block[1],
        },
        page: get16(block, 6),
    }
}

/// Whether a data set's pages have cells; else they have rows.
pub fn has_cells(letter: u8) -> bool
    ensures { result ≡ has_cells letter }
{
    (letter >= b'A' && letter <= b'J') || (letter >= b'M' && letter <= b'V')
}

fn is_of_side(side: u8, letter: u8) -> bool
    ensures { result ≡ is_of_side side letter }
{
    if side == b'A' {
        return (letter >= b'A' && letter <= b'J') || letter == b'X';
    }
    (letter >= b'M' && letter <= b'V') || letter == b'Y'
}

fn other_side(side: u8) -> u8
    ensures { result ≡ other_side side }
{
    if side == b'A' { b'M' } else { b'A' }
}

/// Whether a partition that stands so has this data set.
fn has_set(state: &PartState, set: SetId) -> bool
    ensures { result ≡ has_set state.now set }
{
    if set.letter == b'L' {
        return set.number == 0;
    }
    (set.number == state.number && is_of_side(state.side, set.letter)) || has_next_set(state, set)
}

/// Whether it has it on the side that a reorganization writes.
fn has_next_set(state: &PartState, set: SetId) -> bool
    ensures { result ≡ has_next_set state.now set }
{
    state.state != b'I'
        && u32::from(set.number) == u32::from(state.number) + 1
        && is_of_side(other_side(state.side), set.letter)
}

fn is_index_set(indexes: u16, set: SetId) -> bool
    ensures { result ≡ is_index_set indexes set }
{
    set.part >= 32768
        && u32::from(set.part) <= 32767 + u32::from(indexes)
        && set.number == 0
        && set.letter == b'A'
}

/// Whether a block of this kind and data set is live.
pub fn is_live_set(indexes: u16, states: &[PartState], kind: u8, set: SetId) -> bool
    ensures { result ≡ is_live_set indexes states.now kind set }
{
    is_had(states, set) || (kind == 2 && is_index_set(indexes, set))
}

fn is_had(states: &[PartState], set: SetId) -> bool
    ensures { result ≡ list_any (is_of set) states.now }
{
    for state in states {
        if state.part == set.part && has_set(state, set) {
            return true;
        }
    }
    false
}

/// Whether the data set has a number that its partition has left behind.
pub fn is_left(states: &[PartState], set: SetId) -> bool
    ensures { result ≡ is_left states.now set }
{
    set.letter != b'L' && is_behind(states, set)
}

fn is_behind(states: &[PartState], set: SetId) -> bool
    ensures { result ≡ list_any (leaves_behind set) states.now }
{
    for state in states {
        if state.part == set.part && set.number < state.number {
            return true;
        }
    }
    false
}

pub fn is_free(states: &[PartState], block: &[u8; BLOCK]) -> bool
    ensures { result ≡ is_free states.now block.now }
{
    let head = head_of(block);
    head.kind == 0 || is_left(states, head.set)
}

/// Whether a head says nothing but its data set, its page and, where the block has rows, their count.
fn says_no_more(block: &[u8; BLOCK]) -> bool
    ensures { result ≡ says_no_more block.now }
{
    (block[0] == 2 || block[8..10] == [0, 0]) && block[10..16] == [0, 0, 0, 0, 0, 0]
}

pub fn is_live(indexes: u16, states: &[PartState], block: &[u8; BLOCK]) -> bool
    ensures { result ≡ is_live indexes states.now block.now }
{
    let head = head_of(block);
    !is_free(states, block)
        && (head.kind == 1 || head.kind == 2)
        && is_live_set(indexes, states, head.kind, head.set)
        && says_no_more(block)
}
