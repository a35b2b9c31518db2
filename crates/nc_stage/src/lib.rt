//! Plays scenes: texts of runs over clouds in memory, line by line.
//!
//! A line with an arrow is a run. `put a < INPUT -> ANSWER = OUTPUT` says how a run of the words `put a` with this input ends,
//! and its whole output; no input and no output may be left out. The answer is `0 Ok`, of a run that told no fault, or the
//! exit code and what the line of its fault tells after the program's name, as `4 cloud 2 failed`. `2 usage` stands for the
//! line of words that are no command. A beginning of a line, where no more could be told, stands whole with three dots after
//! it: `3 ncclo...`. Each run begins on fresh clouds with the same objects, so its rounds and entries are counted from its
//! start. Words with spaces at their ends stand in brackets; in words and in texts `¶` is a line feed and `·` a space.
//!
//! A line that begins with `|` is a line of the batches that follow, up to other such lines.
//!
//! Before the words may stand how they are run:
//!
//! - `without two:` once more without each two of the clouds, which are as before afterwards;
//! - `failing 4 6:` four times, with these entries failing so that the old object stands, the new one, none, or a broken
//!   one; after `leaving` stand the counts of objects then. The clouds are as before afterwards;
//! - `refused:` with the input "abc", of which nothing is read; no object changes;
//! - `restore 1 stops at 1 to 15:` and `restore 1 bears 16 to 19:` for each of these entries, and each of the ways in which it
//!   fails. The command fails by a cloud, or is Ok; the words after the colon end so on what it leaves; it is Ok when it is
//!   done once more, and nothing is wrong then. The clouds are as before afterwards;
//! - `batch stops in rounds 4 to 6 leaving old new gone broken:` for each of these rounds: the words after the colon end so on
//!   what a stop in it leaves, each entry in its fate, and once more after a recover. The clouds are as before afterwards;
//! - `stopped in round 3 leaving old new gone broken:` without an arrow: the clouds are left as a stop in this round of the
//!   run leaves them, each entry in its fate. The first round is round 0.
//!
//! Lines for the next run: `reads up to 1`, `read 2 fails`, `writes up to 5`, `write 2 fails`, `tells up to 5`,
//! `tell 2 fails` (of the line of a fault), `entry 19 fails leaving old`. Reads, writes and entries are numbered from 1 on.
//!
//! Lines that change the clouds: `clouds 4` (from here on there are four, without objects), `lose 0`, `lose 0 KEY`,
//! `cut 0 KEY` (by its last byte), `copy 0 KEY to 1`, `rotate` (each holds what the next one held), `raw 0 KEY BYTES`
//! (these bytes are the object), `seal 0 KEY BYTES` (the frame of these bytes is), `seal 0 as 1 of 4 KEY BYTES` (a frame that
//! says that it is of cloud 1 of 4), `seal all KEY BYTES` (on each cloud), `seal each KEY BYTES BYTES ..` (on each of the
//! first clouds its own).
//!
//! Lines that say what stands: `objects 12` (on all clouds together), `unchanged` (the last run changed no object),
//! `size 0 KEY 404`, `digest 0 KEY SHA-256`, `part KEY 79 BYTES` (on each cloud the object has these bytes from there on),
//! `payloads KEY BYTES BYTES ..` (on each of the first clouds the object is the frame of its own),
//! `gets of chunks 0 0 0 0` (how many gave bytes in the last run, by cloud), `rounds of 4 4 2` (the last run had three rounds,
//! and so many entries in each; a list is none).
//!
//! Bytes are pieces: `"abc"`, hexadecimal digits, `zeros:8`, `mixed:8` (bytes of which no part repeats another),
//! `generation:1` (what a put says), and the payloads of metadata of the file "abcdefgh" by the striped code without
//! witnesses: `live:2` (of generation 2), `unsound:2` (with zeros for the rows of the code), `gone:2` (deleted).
//!
//! `each holds KEY KEY ..` (each cloud has objects under exactly these keys) and `holds 0 KEY KEY ..` (that cloud does).
//!
//! `#` begins a remark.
#![tactic(auto)]

mod checks;
mod clouds;
mod ending;
mod interrupted;
mod player;
mod running;
mod steps;
mod value;

pub use clouds::{keys, place_frame};
pub use ending::check_run;
pub use player::{fate_of, play};
pub use value::piece_bytes;
