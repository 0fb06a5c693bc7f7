// The calls of Woodcrock for C, each with the whole promise of the call that it makes. `include/woodcrock.h` declares them.
#![tactic(auto)]

ghost use Rattle.answers.specs.Bound.{BoundsPile};
ghost use Rattle.answers.specs.Finder.{Finds};
ghost use Rattle.blocks.specs.Sorted.{Sorted};
ghost use Rattle.lister.specs.Listed.{Listed};
ghost use Rattle.paths.specs.Answer.{WritesPath};

use woodcrock::{Answer, Bound, Found, PathWritten, Words};

// Lists the nodes of the record that the query picks out, by the plain walk.
#[unsafe(no_mangle)]
pub extern "C" fn woodcrock_list_plain(query: &[u8], record: &[u8], list: &mut [u32]) -> Answer
    ensures { Listed query.now «record».now list.old list.new result }
{
    woodcrock::list_plain(query, record, list)
}

// The same by the jumping walk.
#[unsafe(no_mangle)]
pub extern "C" fn woodcrock_list_jumping(query: &[u8], record: &[u8], list: &mut [u32]) -> Answer
    ensures { Listed query.now «record».now list.old list.new result }
{
    woodcrock::list_jumping(query, record, list)
}

// How many frames the pile can come to for the query, in every record.
#[unsafe(no_mangle)]
pub extern "C" fn woodcrock_bound_pile(query: &[u8]) -> Bound
    ensures { BoundsPile query.now result.ground result.place result.bounded result.frames }
{
    woodcrock::bound_pile(query)
}

// The end of the value that begins at the offset.
#[unsafe(no_mangle)]
pub extern "C" fn woodcrock_find_value(record: &[u8], offset: usize) -> Found
    ensures { Finds «record».now offset result.ground result.place result.end }
{
    woodcrock::find_value(record, offset)
}

// Writes the normalized path of the node that begins at the offset.
#[unsafe(no_mangle)]
pub extern "C" fn woodcrock_write_path(
    record: &[u8],
    offset: usize,
    buffer: &mut [u8],
) -> PathWritten
    ensures { WritesPath «record».now offset buffer.old buffer.new result.ground result.place result.length }
{
    woodcrock::write_path(record, offset, buffer)
}

// The words of the block at the front of the rest of a record.
#[unsafe(no_mangle)]
pub extern "C" fn woodcrock_sort_block(rest: &[u8], inside: bool, odd: bool) -> Words
    ensures { Sorted rest.now inside odd result }
{
    woodcrock::sort_block(rest, inside, odd)
}
