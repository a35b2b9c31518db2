//! Why a run ended, or an act wasn't done, in words.
ghost use Rattle.nc_words.specs.Sending.{Sends};
ghost use Rattle.nc_vault.specs.declared.fault.Fault.TheVariants.{Conflict, Damaged, Misplaced, Unsound};
ghost use Rattle.nc_run.specs.declared.status.Status.TheVariants.{Usage};
ghost use Rattle.nc_run.specs.Telling.{cause_text, name_text, status_text};

use crate::bads::{how_word, say_short};
use crate::numbers::say_one;
use crate::status::Status;
use itoa::Buffer;
use nc_download::How;
use nc_name::NameFault;
use nc_stream::{Failed, Sink};
use nc_vault::Fault;
use nc_words::{send, send_parts};

/// Why a run ended.
pub(crate) fn say_status<E: Sink>(err: &mut E, status: &Status) -> Result<(), Failed>
    ensures says { Sends E.Sink (status_text status.now) err.old err.new result }
{
    match status {
        Status::Ok => Ok(()),
        Status::Width(width) => say_one(err, b"width ", *width, b" is not 4 to 10"),
        Status::Usage => say_usage(err),
        Status::Name(cause) => say_name(err, cause),
        Status::BatchLine(line) => say_one(err, b"batch line ", *line, b" is not a command"),
        Status::TooLong => send(err, b"the input is longer than 67108864 bytes"),
        Status::ReadFault => send(err, b"the input failed"),
        Status::WriteFault => send(err, b"the output failed"),
        Status::Vault(cause) => say_cause(err, cause),
    }
}

/// How the words of a run are written.
fn say_usage<E: Sink>(err: &mut E) -> Result<(), Failed>
    ensures says { Sends E.Sink (status_text Usage) err.old err.new result }
{
    send(
        err,
        b"usage: nccloud CLOUDS [--seed HEX64] [--budget N] [--workers N] COMMAND [ARGUMENT]...",
    )
}

/// Why a name is none.
fn say_name<E: Sink>(err: &mut E, cause: &NameFault) -> Result<(), Failed>
    ensures says { Sends E.Sink (name_text cause.now) err.old err.new result }
{
    match cause {
        NameFault::Empty => send(err, b"the name is empty"),
        NameFault::Long { len } => say_one(err, b"the name has ", *len, b" bytes, at most 100"),
        NameFault::Control { at } => say_one(err, b"the name has a control byte at ", *at, b""),
    }
}

/// Why an act wasn't done.
fn say_cause<E: Sink>(err: &mut E, cause: &Fault) -> Result<(), Failed>
    ensures says { Sends E.Sink (cause_text cause.now) err.old err.new result }
{
    match cause {
        Fault::NoFile => send(err, b"no such file"),
        Fault::Cloud(cloud) => say_one(err, b"cloud ", *cloud, b" failed"),
        Fault::Short(bads) => say_short(err, bads),
        Fault::Spent(tried) => say_one(err, b"none of ", *tried, b" candidates is good"),
        Fault::Worn => send(err, b"the name's generations are used up"),
        Fault::Damaged { cloud, row, how } => say_damaged(err, *cloud, *row, *how),
        Fault::Conflict { generation, a, b } => say_conflict(err, *generation, *a, *b),
        Fault::Misplaced {
            cloud,
            said_cloud,
            said_width,
        } => say_misplaced(err, *cloud, *said_cloud, *said_width),
        Fault::Unsound { a, b } => say_unsound(err, *a, *b),
        Fault::Memory => send(err, b"out of memory"),
    }
}

/// The chunk of this row on this cloud isn't good.
fn say_damaged<E: Sink>(err: &mut E, cloud: u8, row: u8, how: How) -> Result<(), Failed>
    ensures says { Sends E.Sink (cause_text (Damaged cloud row how)) err.old err.new result }
{
    let mut first = Buffer::new();
    let mut second = Buffer::new();
    send_parts(
        err,
        &[
            b"cloud ",
            first.format(cloud).as_bytes(),
            b" row ",
            second.format(row).as_bytes(),
            b" is ",
            how_word(how),
        ],
    )
}

/// These clouds hold different metadata of a generation.
fn say_conflict<E: Sink>(err: &mut E, generation: u64, a: u8, b: u8) -> Result<(), Failed>
    ensures says { Sends E.Sink (cause_text (Conflict generation a b)) err.old err.new result }
{
    let mut first = Buffer::new();
    let mut second = Buffer::new();
    let mut third = Buffer::new();
    send_parts(
        err,
        &[
            b"clouds ",
            first.format(a).as_bytes(),
            b" and ",
            second.format(b).as_bytes(),
            b" differ at generation ",
            third.format(generation).as_bytes(),
        ],
    )
}

/// A cloud holds metadata of another cloud or width.
fn say_misplaced<E: Sink>(err: &mut E, cloud: u8, said: u8, width: u8) -> Result<(), Failed>
    ensures says { Sends E.Sink (cause_text (Misplaced cloud said width)) err.old err.new result }
{
    let mut first = Buffer::new();
    let mut second = Buffer::new();
    let mut third = Buffer::new();
    send_parts(
        err,
        &[
            b"cloud ",
            first.format(cloud).as_bytes(),
            b" holds objects of cloud ",
            second.format(said).as_bytes(),
            b" of ",
            third.format(width).as_bytes(),
        ],
    )
}

/// The rows of a code without these clouds are dependent.
fn say_unsound<E: Sink>(err: &mut E, a: u8, b: u8) -> Result<(), Failed>
    ensures says { Sends E.Sink (cause_text (Unsound a b)) err.old err.new result }
{
    let mut first = Buffer::new();
    let mut second = Buffer::new();
    send_parts(
        err,
        &[
            b"rows without clouds ",
            first.format(a).as_bytes(),
            b" and ",
            second.format(b).as_bytes(),
            b" are dependent",
        ],
    )
}
