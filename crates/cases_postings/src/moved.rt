//! Moves of a cursor.

ghost use Rattle.std.specs.Prelude.{IsTrue};
ghost use Rattle.qm_docset.specs.Lists.{IsPlaced};

use crate::spelled::cut;
use cases::{Done, Fault, Listing, read_document};
use qm_docset::{
    AliveBitSet, COLLECT_BLOCK_BUFFER_LEN, DocId, DocSet, SeekDangerResult, TERMINATED,
};

/// A call that every cursor has.
#[derive(Clone, Copy)]
pub enum Move {
    Doc,
    Advance,
    Seek(DocId),
    SeekDanger(DocId),
    /// a `seek_danger` of which it is known on which document it leaves the cursor at most
    SeekWithin(DocId, DocId),
    Fill,
    FillBelow(DocId),
    Count,
    Total,
    Hint,
    Cost,
}

/// What a call answered.
#[derive(Clone, Copy)]
pub enum Moved {
    Document(DocId),
    Found,
    Below(DocId),
    /// it is not found, and the bound that was answered is one of those that are allowed
    Allowed,
    /// So many documents stand in the buffer.
    Filled(usize),
    Number(u64),
    /// The call asks for what does not hold.
    NotAllowed,
}

/// The call that words name, where every cursor has it.
pub fn read_move(call: &str) -> Option<Move> {
    match call {
        "doc" => Some(Move::Doc),
        "advance" => Some(Move::Advance),
        "fill" => Some(Move::Fill),
        "count" => Some(Move::Count),
        "total" => Some(Move::Total),
        "hint" => Some(Move::Hint),
        "cost" => Some(Move::Cost),
        _ => read_seek(call),
    }
}

fn read_seek(call: &str) -> Option<Move> {
    let (name, rest) = cut(call);
    let (target, rest) = cut(rest);
    let target = read_document(target)?;
    if !rest.is_empty() {
        let (within, most) = cut(rest);
        let most = read_document(most)?;
        let is_known = name == "seek_danger" && within == "within";
        return if is_known {
            Some(Move::SeekWithin(target, most))
        } else {
            None
        };
    }
    match name {
        "seek" => Some(Move::Seek(target)),
        "seek_danger" => Some(Move::SeekDanger(target)),
        "fill_below" => Some(Move::FillBelow(target)),
        _ => None,
    }
}

/// Makes a call, where the cursor is placed if the call asks for that.
pub fn make_move<C: DocSet>(
    alive: &AliveBitSet,
    cursor: &mut C,
    call: Move,
    placed: &mut bool,
    buffer: &mut [DocId; COLLECT_BLOCK_BUFFER_LEN],
) -> Moved
    requires valid { C.valid cursor.old }
    requires placed { IsTrue placed.old → C.placed cursor.old }
    ensures valid { C.valid cursor.new }
    ensures placed { IsTrue placed.new → C.placed cursor.new }
{
    match call {
        Move::Seek(target) => seek(cursor, target, placed),
        Move::SeekDanger(target) => seek_danger(cursor, target, placed),
        Move::SeekWithin(target, most) => {
            let moved = seek_danger(cursor, target, placed);
            within(moved, target, most)
        }
        Move::Hint => Moved::Number(u64::from(cursor.size_hint())),
        Move::Cost => Moved::Number(cursor.cost()),
        _ => {
            if *placed {
                move_placed(alive, cursor, call, buffer)
            } else {
                Moved::NotAllowed
            }
        }
    }
}

fn seek<C: DocSet>(cursor: &mut C, target: DocId, placed: &mut bool) -> Moved
    requires valid { C.valid cursor.old }
    requires placed { IsTrue placed.old → C.placed cursor.old }
    ensures valid { C.valid cursor.new }
    ensures placed { IsTrue placed.new → C.placed cursor.new }
{
    if target > TERMINATED {
        return Moved::NotAllowed;
    }
    *placed = true;
    Moved::Document(cursor.seek(target))
}

fn seek_danger<C: DocSet>(cursor: &mut C, target: DocId, placed: &mut bool) -> Moved
    requires valid { C.valid cursor.old }
    requires placed { IsTrue placed.old → C.placed cursor.old }
    ensures valid { C.valid cursor.new }
    ensures placed { IsTrue placed.new → C.placed cursor.new }
{
    if target > TERMINATED {
        return Moved::NotAllowed;
    }
    match cursor.seek_danger(target) {
        SeekDangerResult::Found => {
            *placed = true;
            Moved::Found
        }
        SeekDangerResult::SeekLowerBound(bound) => {
            *placed = false;
            Moved::Below(bound)
        }
    }
}

// What `seek_danger` answered, where it is known on which document it leaves the cursor at most.
fn within(moved: Moved, target: DocId, most: DocId) -> Moved {
    match moved {
        Moved::Below(bound) if bound <= most && (bound > target || bound == TERMINATED) => {
            Moved::Allowed
        }
        _ => moved,
    }
}

// The calls that ask for a placed cursor, and keep it so.
fn move_placed<C: DocSet>(
    alive: &AliveBitSet,
    cursor: &mut C,
    call: Move,
    buffer: &mut [DocId; COLLECT_BLOCK_BUFFER_LEN],
) -> Moved
    requires { IsPlaced C.DocSet cursor.old }
    ensures { IsPlaced C.DocSet cursor.new }
{
    match call {
        Move::Doc => Moved::Document(cursor.doc()),
        Move::Advance => Moved::Document(cursor.advance()),
        Move::Fill => Moved::Filled(cursor.fill_buffer(buffer)),
        Move::FillBelow(bound) => Moved::Filled(cursor.fill_buffer_below(bound, buffer)),
        Move::Count => Moved::Number(u64::from(cursor.count(alive))),
        Move::Total => Moved::Number(u64::from(cursor.count_including_deleted())),
        _ => Moved::NotAllowed,
    }
}

impl Moved {
    /// Writes what a call answered; what is none is a fault.
    pub fn write(self, buffer: &[DocId; COLLECT_BLOCK_BUFFER_LEN], text: &mut Listing) -> Done {
        match self {
            Moved::Document(doc) => text.document(doc),
            Moved::Found => text.word("found"),
            Moved::Below(bound) => {
                text.word("below ");
                text.document(bound);
            }
            Moved::Allowed => text.word("allowed"),
            Moved::Filled(count) => text.documents(&buffer[..count.min(buffer.len())]),
            Moved::Number(number) => write!(text, "{number}"),
            Moved::NotAllowed => return Err(Fault::NotAllowed),
        }
        Ok(())
    }
}
