// The public calls for programs in other languages, under C's calling convention: tests and benchmarks link them.
#![tactic(auto)]

ghost use Rattle.std.specs.Prelude.{◌≡◌};
ghost use Rattle.record.specs.Step.{step_of, step_at};
ghost use Rattle.reader.specs.Reader.{read_of};
ghost use Rattle.counts.specs.Counts.{counts_in};
ghost use Rattle.timestamp.specs.Stamp.{stamp_of};
ghost use Rattle.writer.specs.Writer.{after, write_of};
ghost use Rattle.settings.specs.Settings.{loaded_of};
ghost use Rattle.events.specs.Lent.{left, open_on, close_on, tick_on, receive_on};
ghost use Rattle.packets.specs.Fold.{packet_on};
ghost use Rattle.batch.specs.Told.{told, told_of};
ghost use Rattle.reconcile.specs.Reconciled.{reconciled_of};
ghost use Rattle.filename.specs.Reading.{read_of as name_of};
ghost use Rattle.filename.specs.Writing.{after as spelled};
ghost use Rattle.filename.specs.Writing.{write_of as name_written};
ghost use Rattle.exports.specs.Place.{body_place, part_place};

use batch::Answers;
use cdrfile::Header;
use counts::Counts;
use events::{Answer, Arrival};
use filename::{Fields, Name};
use reader::{Contents, Part};
use reconcile::Reconciled;
use record::Stepped;
use settings::Loaded;
use timestamp::Stamped;
use writer::Written;

#[unsafe(no_mangle)]
pub extern "C" fn cdr_read(file: &[u8]) -> Contents
    ensures { result ≡ read_of file.now }
{
    reader::read(file)
}

#[unsafe(no_mangle)]
pub extern "C" fn cdr_step(part: &[u8]) -> Stepped
    ensures { result ≡ step_of part.now }
{
    record::step(part)
}

#[unsafe(no_mangle)]
pub extern "C" fn cdr_step_at(file: &[u8], at: usize) -> Stepped
    ensures { result ≡ step_at file.now at }
{
    record::step_at(file, at)
}

#[unsafe(no_mangle)]
pub extern "C" fn cdr_write(
    header: Header,
    filter: &[u8],
    private: &[u8],
    records: &[u8],
    output: &mut [u8],
) -> Written
    ensures { after result output.new ≡ write_of header filter.now private.now records.now output.old }
{
    writer::write(header, filter, private, records, output)
}

#[unsafe(no_mangle)]
pub extern "C" fn cdr_counts(private: &[u8]) -> Counts
    ensures { result ≡ counts_in private.now }
{
    counts::read(private)
}

#[unsafe(no_mangle)]
pub extern "C" fn cdr_stamp(minutes: u32, bias: u32) -> Stamped
    ensures { result ≡ stamp_of minutes bias }
{
    timestamp::stamp(minutes, bias)
}

// The body's place, since a part of a slice cannot cross to C.
#[unsafe(no_mangle)]
pub extern "C" fn cdr_body_at(file: &[u8], at: usize) -> Part
    ensures { result ≡ body_place file.now at }
{
    let s = record::step_at(file, at);
    let body = record::body_at(file, at);
    if s.refusal != 0 {
        return Part {
            start: 0,
            octets: body.len(),
        };
    }
    Part {
        start: at + s.header,
        octets: body.len(),
    }
}

// The part's place, likewise; that of the empty part is zeros, whatever place was asked for.
#[unsafe(no_mangle)]
pub extern "C" fn cdr_part_of(file: &[u8], p: Part) -> Part
    ensures { result ≡ part_place file.now p }
{
    let part = reader::part_of(file, p);
    if part.len() == 0 {
        return Part {
            start: 0,
            octets: 0,
        };
    }
    Part {
        start: p.start,
        octets: part.len(),
    }
}

#[unsafe(no_mangle)]
pub extern "C" fn cdr_load(octets: &[u8]) -> Loaded
    ensures { result ≡ loaded_of octets.now }
{
    settings::load(octets)
}

#[unsafe(no_mangle)]
pub extern "C" fn cdr_open(
    words: &mut [u32],
    store: &mut [u8],
    output: &mut [u8],
    time: u32,
    route: u32,
) -> Answer
    ensures { left result words.new store.new output.new ≡ open_on words.old store.old output.old time route }
{
    manager::open(words, store, output, time, route)
}

#[unsafe(no_mangle)]
pub extern "C" fn cdr_close(
    words: &mut [u32],
    store: &mut [u8],
    output: &mut [u8],
    time: u32,
    route: u32,
    reason: u32,
) -> Answer
    ensures { left result words.new store.new output.new ≡ close_on words.old store.old output.old time route reason }
{
    manager::close(words, store, output, time, route, reason)
}

#[unsafe(no_mangle)]
pub extern "C" fn cdr_tick(
    words: &mut [u32],
    store: &mut [u8],
    output: &mut [u8],
    time: u32,
) -> Answer
    ensures { left result words.new store.new output.new ≡ tick_on words.old store.old output.old time }
{
    manager::tick(words, store, output, time)
}

#[unsafe(no_mangle)]
pub extern "C" fn cdr_receive(
    words: &mut [u32],
    store: &mut [u8],
    output: &mut [u8],
    time: u32,
    a: Arrival,
    key: &[u8],
    body: &[u8],
) -> Answer
    ensures { left result words.new store.new output.new ≡ receive_on words.old store.old output.old time a key.now body.now }
{
    receiving::receive(words, store, output, time, a, key, body)
}

#[unsafe(no_mangle)]
pub extern "C" fn cdr_packet(
    words: &mut [u32],
    store: &mut [u8],
    output: &mut [u8],
    packet: &[u8],
) -> Answers
    ensures { told result words.new store.new output.new ≡ told_of (packet_on words.old store.old output.old packet.now) }
{
    batch::take(words, store, output, packet)
}

#[unsafe(no_mangle)]
pub extern "C" fn cdr_name_read(name: &[u8]) -> Name
    ensures { result ≡ name_of name.now }
{
    filename::read(name)
}

#[unsafe(no_mangle)]
pub extern "C" fn cdr_name_write(
    f: Fields,
    node: &[u8],
    private: &[u8],
    output: &mut [u8],
) -> filename::Written
    ensures { spelled result output.new ≡ name_written f node.now private.now output.old }
{
    filename::write(f, node, private, output)
}

// It needs 3 MiB of stack, for the offsets of the records of both files and to sort them in.
#[unsafe(no_mangle)]
pub extern "C" fn cdr_reconcile(first: &[u8], second: &[u8]) -> Reconciled
    ensures { result ≡ reconciled_of first.now second.now }
{
    reconcile::reconcile(first, second)
}
