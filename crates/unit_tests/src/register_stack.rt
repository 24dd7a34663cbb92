//! The register stack: what is in its backing store, which its debug text shows.

use ia_insn::Gr;
use reg_stack::{Cell, FrameShape, Rse, Stack};
use std::alloc::Global;
use std::mem::size_of;
use std::test::Fail;

/// The words of the backing store, as the debug text of a stack has them.
fn words_of(alloc: Global, stack: &Stack) -> Result<Vec<u64>, Fail> {
    let text = format!(in alloc; "{stack:?}")?;
    let (_, region) = text.split_once(", region: [").ok_or("no words")?;
    let (region, _) = region.split_once("], ").ok_or("no end")?;
    let mut words = Vec::new(alloc);
    for word in region.split(", ") {
        words.push(word.parse::<u64>()?)?;
    }
    Ok(words)
}

/// How many words a stack has, the last one of a NaT collection's 63 cells, and the collection.
fn last_words(alloc: Global, stack: &Stack) -> Result<(usize, Option<u64>, Option<u64>), Fail> {
    let words = words_of(alloc, stack)?;
    Ok((words.len(), words.get(62).copied(), words.get(63).copied()))
}

/// Cells go out of the ring and come back, one of them with the last NaT bit of a word.
#[test]
fn cells_go_and_come_back(rt: HostRuntime) -> Result<(), Fail> {
    let alloc = rt.alloc();
    let mut stack = Stack::open(alloc, 65_536)?;
    let last = Gr::of_field(94);
    let cell = Cell {
        value: 7,
        nat: true,
    };
    stack.alloc_frame(96, 90, 0)?;
    stack.set(last, cell)?;
    stack.call();
    stack.alloc_frame(96, 90, 0)?;
    let out = Rse {
        low: 90,
        high: 186,
        spilled: 90,
        filled: 0,
    };
    assert_eq!(rt; stack.rse(), out);
    let spilled = (66_624, Some(7), Some(1 << 62));
    assert_eq!(rt; last_words(alloc, &stack)?, spilled);
    // 96 registers, of which 90 are local
    stack.ret(11_616)?;
    let back = Rse {
        low: 0,
        high: 96,
        spilled: 90,
        filled: 90,
    };
    assert_eq!(rt; stack.rse(), back);
    assert_eq!(rt; stack.get(last)?, cell);
    let filled = (66_624, Some(0), Some(0));
    assert_eq!(rt; last_words(alloc, &stack)?, filled);
    Ok(())
}

/// The debug text of an empty stack of 96 cells with this frame and this resident range.
fn empty_text(alloc: Global, shape: FrameShape, rse: Rse) -> Result<String, Fail> {
    let (ring, region) = ([Cell::default(); 96], vec![in alloc; 0_u64; 128]?);
    Ok(format!(in alloc;
        "Stack {{ ring: {ring:?}, region: {region:?}, shape: {shape:?}, rse: {rse:?}, limit: 96 }}"
    )?)
}

/// A stack has a ring of 96 cells, the words of its backing store, its frame, its resident range and its limit, and
/// nothing else.
#[test]
fn there_are_five_fields(rt: HostRuntime) -> Result<(), Fail> {
    let alloc = rt.alloc();
    let stack = Stack::open(alloc, 96)?;
    let text = format!(in alloc; "{stack:?}")?;
    let (shape, rse) = (stack.shape(), stack.rse());
    assert_eq!(rt; text, empty_text(alloc, shape, rse)?);
    assert_eq!(rt; (shape.sof, rse.high), (0, 0));
    let size = size_of::<([Cell; 96], Vec<u64>, FrameShape, Rse, u32)>();
    assert_eq!(rt; size_of::<Stack>(), size);
    Ok(())
}
