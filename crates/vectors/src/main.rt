//! Compares whole calls of `ia64`, the reader of lines, and the decoder and the encoder of bundles with what they have to
//! answer.
//!
//! Standard input has a row a line. Its first word tells of what it speaks:
//!
//! - `bundle`: the sixteen bytes of a bundle, and what they have to decode to: a template and the canonical lines of its slots,
//!   or a fault;
//! - `slot`: the sixteen bytes of a bundle, a slot, and a text that has to be read as the instruction of this slot;
//! - `line`: what a line is that is no slot's, and the line; `words`: the words of a line; `token`: what its one word may be
//!   read as;
//! - `char`, `name`, `register`, `number`, `range` and `form`: a line that has this fault;
//! - `call`: a call of `ia64`, and what it has to answer, in six columns with tabs between them:
//!   - the words, where `|` stands between those of two calls, of which the second takes what the first one gives;
//!   - the status that is wanted;
//!   - the source, as `4096 - 0` says: how many bytes one of its calls gives, the number from 0 of its call that fails, or
//!     `-` for none, and how many bytes it still has after the call of `ia64`, or `-` where its next call fails;
//!   - the sink, as `530000 4096 -` says: its room, how many bytes one of its calls takes, and the number of its call that
//!     fails, or `-` for none;
//!   - the input, and the output that is wanted, each in parts with `~` between them: a text behind `"`, with a `\` for each
//!     line feed, or hexadecimal digits, or so many times the same digits, as `4096*00ff`;
//! - `#`: a heading;
//! - `not`: a row that is wrong on purpose, so that it shows that a difference is seen.
//!
//! The last row of all is wrong without that word. The scripts `generate/make_*_rows.py` write the file; the bytes of bundles, and
//! of the images of most texts, are those of the GNU tools. The program names the first ten rows that differ, and then says how
//! many were read and how many of them differ.
#![tactic(auto)]

mod bundle_texts;
mod bundles;
mod bytes;
mod calls;
mod lexemes;
mod lines;
mod rows;
mod slots;
mod spelling;
mod streams;
mod wanted;

use rows::is_right;
use std::io::{self, BufRead, BufReader};

/// How many differing rows are named.
const NAMED: usize = 10;

fn main(rt: HostRuntime) -> io::Result<()> {
    let alloc = rt.alloc();
    let mut read = 0;
    let mut differing = 0;
    for (index, line) in BufReader::new(alloc, rt.reader())?.lines(alloc).enumerate() {
        read = index + 1;
        if is_right(alloc, &line?)? {
            continue;
        }
        differing += 1;
        if differing <= NAMED {
            println!(rt; "row {read} differs")?;
        }
    }
    println!(rt; "{read} rows, {differing} differ")
}
