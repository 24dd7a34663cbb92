//! The bundles of a text as if no stop were wanted, with a stop behind each.

ghost use Rattle.std.specs.Prelude.{◌≡◌, ◌++◌, ◌∷◌, [], OnOk, IfOk, true, false, map};
ghost use Rattle.loose_items.specs.Packings.{wanted_as, plain_of};
ghost use Rattle.stop_placer.specs.Packings.{chunk};

use crate::packing::alone;
use arrayvec::ArrayVec;
use bundling::Chunk;
use loose_text::{Item, LooseText, joins, wanted_as};
use slot_layouts::Wanted;
use std::alloc::{AllocError, Global};
use std::mem;

/// Closes a bundle, with a stop behind it, and begins another with this instruction.
///
/// # Errors
///
/// Want of memory.
fn close(
    chunks: &mut Vec<Chunk>,
    current: &mut ArrayVec<Wanted, 3>,
    item: &Item,
) -> Result<(), AllocError>
    ensures closed { OnOk result (chunks.new.items ≡ chunks.old.items ++ chunk current.old.items true ∷ []) }
    ensures begun { OnOk result (current.new.items ≡ wanted_as item.now false ∷ []) }
{
    let wanted = mem::replace(current, alone(item));
    chunks.push(Chunk { wanted, end: true })?;
    Ok(())
}

/// The bundles of a text as if no stop were wanted, with a stop behind each.
///
/// # Errors
///
/// Want of memory.
pub(crate) fn plain_chunks(alloc: Global, text: &LooseText) -> Result<Vec<Chunk>, AllocError>
    ensures { IfOk result (λ chunks. chunks.items ≡ map (λ ws. chunk ws true) (plain_of text.now.items)) }
{
    let items = text.items();
    let mut chunks = Vec::new(alloc);
    let [first, rest @ ..] = items else {
        return Ok(chunks);
    };
    let mut current = alone(first);
    let mut before = *first;
    for item in rest {
        if joins(&current, &before, item, false) {
            current.push(wanted_as(item, false));
        } else {
            close(&mut chunks, &mut current, item)?;
        }
        before = *item;
    }
    chunks.push(Chunk {
        wanted: current,
        end: true,
    })?;
    Ok(chunks)
}
