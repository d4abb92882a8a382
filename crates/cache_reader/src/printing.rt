//! The output of `ldconfig -p`.
ghost use Rattle.std.specs.Prelude.{◌≡◌, ◌++◌, flat_map, option_map, codes};
ghost use Rattle.std.specs.Fmt.{decimal};
ghost use Rattle.std.specs.Int.{cast_unsigned, w32};
ghost use Rattle.tree_face.specs.Stream.{TakesAll};
ghost use Rattle.cache_reader.specs.Cache.{read};
ghost use Rattle.cache_reader.specs.Printed.{kind, abi, abi_number, hwcap, hex_digits, front, entry_line, first_line, last_line, printed};
ghost use Rattle.cache_reader.specs.Buffers.{Puts};
ghost use Rattle.cache_reader.specs.Views.{entry_of};

use crate::buffer::{Buffer, flush, put, put_between};
use crate::view::{CacheView, EntryView};
use lib_types::{Abi, Failed};
use tree_face::Sink;

const LOWER_DIGITS: &[u8; 16] = b"0123456789abcdef";

// The kind of library.
fn kind(flags: u32) -> &'static [u8]
    ensures { result.now ≡ kind flags }
{
    if flags % 256 == 3 {
        b"libc6"
    } else {
        b"unknown"
    }
}

fn abi_number(flags: u32) -> u16
    ensures { result ≡ abi_number flags }
{
    (flags / 256 % 256 * 256) as u16
}

// 16 hexadecimal digits.
fn hex_digits(number: u64) -> [u8; 16]
    ensures { result ≡ hex_digits number }
{
    let mut digits = [0; 16];
    for index in 0..16 {
        digits[index] = LOWER_DIGITS[(number >> (60 - 4 * index)) as usize % 16];
    }
    digits
}

fn put_abi<O: Sink>(sink: &mut O, buffer: &mut Buffer, number: u16) -> Result<(), Failed>
    ensures { Puts (abi number) buffer.old buffer.new (O.state sink.old) (O.state sink.new) result }
{
    match Abi::of_flags(i32::from(number) + 3) {
        Some(abi) => put(sink, buffer, abi.row().printed),
        None => put_number(sink, buffer, number),
    }
}

fn put_decimal<O: Sink>(sink: &mut O, buffer: &mut Buffer, number: u64) -> Result<(), Failed>
    ensures { Puts (decimal number) buffer.old buffer.new (O.state sink.old) (O.state sink.new) result }
{
    put(sink, buffer, itoa::Buffer::new().format(number).as_bytes())
}

// Prints the number of an unknown ABI.
fn put_number<O: Sink>(sink: &mut O, buffer: &mut Buffer, number: u16) -> Result<(), Failed>
    ensures { Puts (codes "," ++ decimal number) buffer.old buffer.new (O.state sink.old) (O.state sink.new) result }
{
    put(sink, buffer, b",")?;
    put_decimal(sink, buffer, u64::from(number))
}

fn put_hwcap<O: Sink>(
    sink: &mut O,
    buffer: &mut Buffer,
    number: u64,
    cap: Option<&[u8]>,
) -> Result<(), Failed>
    ensures { Puts (hwcap number (option_map (λ t. t.now) cap.entry)) buffer.old buffer.new (O.state sink.old) (O.state sink.new) result }
{
    match cap {
        Some(cap) => put_between(sink, buffer, b", hwcap: \"", cap, b"\""),
        None => put_unnamed(sink, buffer, number),
    }
}

// Prints a hwcap that isn't the index of a name.
fn put_unnamed<O: Sink>(sink: &mut O, buffer: &mut Buffer, number: u64) -> Result<(), Failed>
    ensures { Puts (hwcap number None) buffer.old buffer.new (O.state sink.old) (O.state sink.new) result }
{
    if number == 0 {
        put(sink, buffer, b"")
    } else {
        put_hex(sink, buffer, number)
    }
}

fn put_hex<O: Sink>(sink: &mut O, buffer: &mut Buffer, number: u64) -> Result<(), Failed>
    ensures { Puts (codes ", hwcap: 0x" ++ hex_digits number) buffer.old buffer.new (O.state sink.old) (O.state sink.new) result }
{
    put(sink, buffer, b", hwcap: 0x")?;
    put(sink, buffer, &hex_digits(number))
}

// Prints the soname of an entry and the words of its flags.
fn put_name<O: Sink>(
    sink: &mut O,
    buffer: &mut Buffer,
    name: &[u8],
    flags: u32,
) -> Result<(), Failed>
    ensures { Puts (front name.now flags) buffer.old buffer.new (O.state sink.old) (O.state sink.new) result }
{
    put_between(sink, buffer, b"\t", name, b" (")?;
    put(sink, buffer, kind(flags))?;
    put_abi(sink, buffer, abi_number(flags))
}

// The flags as an unsigned number.
fn bits(entry: &EntryView<'_>) -> u32
    ensures { result ≡ cast_unsigned w32 entry.now.flags }
{
    entry.flags.cast_unsigned()
}

fn put_entry<O: Sink>(
    sink: &mut O,
    buffer: &mut Buffer,
    entry: &EntryView<'_>,
) -> Result<(), Failed>
    ensures { Puts (entry_line (entry_of entry.now)) buffer.old buffer.new (O.state sink.old) (O.state sink.new) result }
{
    put_name(sink, buffer, entry.name, bits(entry))?;
    put_hwcap(sink, buffer, entry.hwcap, entry.cap)?;
    put_between(sink, buffer, b") => ", entry.path, b"\n")
}

fn put_entries<O: Sink>(
    sink: &mut O,
    buffer: &mut Buffer,
    view: &CacheView<'_>,
) -> Result<(), Failed>
    ensures { Puts (flat_map entry_line (read view.now)) buffer.old buffer.new (O.state sink.old) (O.state sink.new) result }
{
    for index in 0..view.len() {
        put_entry(sink, buffer, &view.entry_within(index))?;
    }
    Ok(())
}

fn put_generator<O: Sink>(
    sink: &mut O,
    buffer: &mut Buffer,
    text: Option<&[u8]>,
) -> Result<(), Failed>
    ensures { Puts (last_line (option_map (λ t. t.now) text.entry)) buffer.old buffer.new (O.state sink.old) (O.state sink.new) result }
{
    match text {
        Some(text) => put_between(sink, buffer, b"Cache generated by: ", text, b"\n"),
        None => put(sink, buffer, b""),
    }
}

fn put_first<O: Sink>(
    sink: &mut O,
    buffer: &mut Buffer,
    count: usize,
    name: &[u8],
) -> Result<(), Failed>
    ensures { Puts (first_line count name.now) buffer.old buffer.new (O.state sink.old) (O.state sink.new) result }
{
    put_decimal(sink, buffer, count as u64)?;
    put_between(sink, buffer, b" libs found in cache `", name, b"'\n")
}

fn put_cache<O: Sink>(
    sink: &mut O,
    buffer: &mut Buffer,
    view: &CacheView<'_>,
    name: &[u8],
) -> Result<(), Failed>
    ensures { Puts (printed view.now name.now) buffer.old buffer.new (O.state sink.old) (O.state sink.new) result }
{
    put_first(sink, buffer, view.len(), name)?;
    put_entries(sink, buffer, view)?;
    put_generator(sink, buffer, view.generator())
}

/// Prints a cache as `ldconfig -p` does. The first line has the name of the cache. After an error a first part of the output was written.
pub fn print<O: Sink>(view: &CacheView<'_>, name: &[u8], sink: &mut O) -> Result<(), Failed>
    ensures { TakesAll (O.state sink.old) (O.state sink.new) (printed view.now name.now) result }
{
    let mut buffer = Buffer::new();
    put_cache(sink, &mut buffer, view, name)?;
    flush(sink, &mut buffer)
}
