//! The rows of faults, and of lines that aren't slots.

use asm_lexemes::limits::LINE_LIMIT;
use asm_lexemes::{LineFault, Name};
use asm_reading::{Line, TemplateName, read_line};

/// Whether the line has the fault of this name.
pub fn has_fault(line: &str, fault: &str) -> bool {
    if line.len() > LINE_LIMIT {
        return false;
    }
    match read_line(line.as_bytes()) {
        Err(found) => fault == fault_name(found),
        Ok(_) => false,
    }
}

/// The name of a fault in the input.
fn fault_name(fault: LineFault) -> &'static str {
    match fault {
        LineFault::Char => "char",
        LineFault::Name => "name",
        LineFault::Register => "register",
        LineFault::Number => "number",
        LineFault::Range => "range",
        LineFault::Form => "form",
    }
}

/// Whether a row of a line that isn't a slot's is right: what the line is, a `|`, and the line.
pub fn is_line(rest: &str) -> bool {
    let Some((what, line)) = rest.split_once('|') else {
        return false;
    };
    if line.len() > LINE_LIMIT {
        return false;
    }
    match read_line(line.as_bytes()) {
        Ok(read) => is_what(&read, what),
        Err(_) => false,
    }
}

/// Whether a line is what the row says: a word, and after it what the line holds.
fn is_what(line: &Line, what: &str) -> bool {
    let (kind, held) = what.split_once(' ').unwrap_or((what, ""));
    kind == name_of(line)
        && match line {
            Line::Label { name } | Line::Entry { name } => is_named(name, held),
            Line::Relation { predicates } => are_predicates(predicates.numbers(), held),
            Line::Numbers { size, values } => are_numbers(*size, values.numbers(), held),
            Line::Skip { count } => held.parse::<u32>() == Ok(*count),
            Line::Open { name } => held == template_name(name),
            _ => held.is_empty(),
        }
}

/// The word of the input for a kind of line.
fn name_of(line: &Line) -> &'static str {
    match line {
        Line::Empty => "empty",
        Line::Label { .. } => "label",
        Line::Text => "text",
        Line::Data => "data",
        Line::Entry { .. } => "entry",
        Line::Ignored => "ignored",
        Line::Relation { .. } => "relation",
        Line::Numbers { .. } => "numbers",
        Line::Skip { .. } => "skip",
        Line::Open { .. } => "open",
        Line::Slot { .. } => "slot",
        Line::Stop => "stop",
        Line::Close => "close",
    }
}

/// Whether a name has these bytes.
fn is_named(name: &Name, bytes: &str) -> bool {
    name.bytes() == bytes.as_bytes()
}

/// The name of a template in the input.
fn template_name(name: &TemplateName) -> &'static str {
    match name {
        TemplateName::Mii => "mii",
        TemplateName::Mlx => "mlx",
        TemplateName::Mmi => "mmi",
        TemplateName::Mfi => "mfi",
        TemplateName::Mmf => "mmf",
        TemplateName::Mib => "mib",
        TemplateName::Mbb => "mbb",
        TemplateName::Bbb => "bbb",
        TemplateName::Mmb => "mmb",
        TemplateName::Mfb => "mfb",
    }
}

/// Whether these are the numbers of the text, with blanks between them.
fn are_predicates(numbers: &[u8], text: &str) -> bool {
    let mut words = text.split_whitespace();
    for number in numbers {
        let Some(word) = words.next() else {
            return false;
        };
        if word.parse::<u8>() != Ok(*number) {
            return false;
        }
    }
    words.next().is_none()
}

/// Whether these are the size and then the numbers of the text, with blanks between them.
fn are_numbers(size: u8, numbers: &[u64], text: &str) -> bool {
    let mut words = text.split_whitespace();
    if words.next() != Some(size_name(size)) {
        return false;
    }
    for number in numbers {
        let Some(word) = words.next() else {
            return false;
        };
        if word.parse::<u64>() != Ok(*number) {
            return false;
        }
    }
    words.next().is_none()
}

/// The size of a number in the input.
fn size_name(size: u8) -> &'static str {
    match size {
        1 => "1",
        2 => "2",
        4 => "4",
        8 => "8",
        _ => "",
    }
}
