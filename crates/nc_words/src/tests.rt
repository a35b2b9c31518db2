//! What words and lines ask for.

use crate::{Act, Command, LineFault, Request, WordFault, read_line, read_words};
use nc_name::NameFault;
use std::alloc::Global;
use std::test::Fail;

#[test]
fn words_ask_for_a_command_or_nothing(rt: HostRuntime) -> Result<(), Fail> {
    let alloc = rt.alloc();
    let rows = "
        |put a = put
        |get b = get
        |get b c = usage
        |rm recover = rm
        |stat ls = stat
        |ls = ls
        |ls a = usage
        |recover = recover
        |recover a = usage
        |repair = usage
        |repair 1 2 = usage
        |repair recover = usage
        |restore = usage
        |restore 1 2 3 = usage
        |put 1 2 = usage
        |scrub = scrub
        |scrub 1 = usage
        |batch = batch
        |batch x = usage
        |mill 7 = mill
        |mill = usage
        |put = usage
        |PUT a = usage
        | = usage
        |put  = empty
        |get a\tb = control
        |remove \t = usage
        |--budget 8 ls = ls
        |--budget=8 ls = ls
        |ls --budget 8 = ls
        |restore 1 --budget 3 2 = restore
        |--budget 8 --budget 8 ls = usage
        |--budget=8 ls --budget=8 = usage
        |--budget ls = usage
        |--seed = usage
        |ls --seed = usage
        |ls --seed= = usage
        |--depth 3 ls = usage
        |-x = usage
        |-h = usage
        |--help = usage
        |ls --help = usage
        |-b 8 ls = usage
        |put -x = usage
        |put -- -x = put
        |-- put -x = put
        |put - = put
        |- = usage
        |ls -- = ls
        |ls -- --budget=8 = usage
        |--budget 8 -- put --budget = put
        |--budget 8 = usage
        |--seed 0 put a\tb = usage
        |--budget 0 put  = usage
        |--budget 1 put  = empty
    ";
    for row in rows.lines() {
        let Some((line, want)) = parts_of(row) else {
            continue;
        };
        let words = split(alloc, line)?;
        assert_eq!(rt;
            asked(read_words(alloc, words.as_slice(), 4)),
            want,
            "{row}"
        );
    }
    assert_eq!(rt; asked(read_words(alloc, &[], 4)), "usage");
    Ok(())
}

#[test]
fn numbers_and_seeds_are_in_their_ranges(rt: HostRuntime) -> Result<(), Fail> {
    let alloc = rt.alloc();
    let rows = "
        |ls = 64 1
        |--budget 1 --workers 16 ls = 1 16
        |--budget=4096 ls = 4096 1
        |--budget 0064 ls --workers 02 = 64 2
        |--budget 0 ls = none
        |--budget 4097 ls = none
        |--budget 65537 ls = none
        |--budget +8 ls = none
        |--budget=-8 ls = none
        |--budget= ls = none
        |--workers 0 ls = none
        |--workers 17 ls = none
        |--workers 257 ls = none
        |repair 0 = 0 0
        |repair 3 = 3 0
        |repair 03 = 3 0
        |repair 00000000000000000003 = 3 0
        |repair 000000000000000000003 = none
        |repair 18446744073709551616 = none
        |repair 4 = none
        |repair 260 = none
        |repair +1 = none
        |repair -1 = none
        |repair  = none
        |restore 3 = 3 255
        |restore 0 3 = 0 3
        |restore 03 00 = 3 0
        |restore 1 --budget 3 2 = 1 2
        |restore 4 = none
        |restore 4 1 = none
        |restore 1 4 = none
        |restore 1 1 = none
        |restore 1 01 = none
        |restore 1  = none
        |restore 1 +2 = none
        |mill 18446744073709551615 = 18446744073709551615 0
        |mill 18446744073709551616 = none
        |mill +7 = none
        |--seed=00112233445566778899aabbccddeeffFFEEDDCCBBAA99887766554433221100 batch = 17 255
        |batch --seed 01122233445566778899aabbccddeeffFFEEDDCCBBAA99887766554433221100 = 18 255
        |--seed 0112233445566778899aabbccddeeffFFEEDDCCBBAA99887766554433221100 batch = none
        |--seed 000112233445566778899aabbccddeeffFFEEDDCCBBAA99887766554433221100 batch = none
        |--seed 0 batch = none
        |--seed 0x112233445566778899aabbccddeeffFFEEDDCCBBAA99887766554433221100 batch = none
        |--seed 00112233445566778899aabbccddeeffFFEEDDCCBBAA9988776655443322110g batch = none
    ";
    for row in rows.lines() {
        let Some((line, want)) = parts_of(row) else {
            continue;
        };
        let words = split(alloc, line)?;
        let told = match numbers(read_words(alloc, words.as_slice(), 4)) {
            Some((first, second)) => format!(in alloc; "{first} {second}")?,
            None => String::from_str(alloc, "none")?,
        };
        assert_eq!(rt; told.as_str(), want, "{row}");
    }
    Ok(())
}

#[test]
fn a_line_asks_for_an_act_or_nothing(rt: HostRuntime) -> Result<(), Fail> {
    let alloc = rt.alloc();
    let rows = "
        |put a 6162 = put 2
        |put a b Ff00fF = put 3
        |put a b - = put 0
        |put - - = put 0
        |put -x - = put 0
        |put a  - = put 0
        |put a 6 = outside 0
        |put a 616 = outside 0
        |put a 6x = outside 0
        |put a  = outside 0
        |put a b = outside 0
        |put a = outside 0
        |put  - = outside 0
        |put - = outside 0
        |put a\tb - = outside 0
        |PUT a - = outside 0
        | put a - = outside 0
        | = outside 0
        |  = outside 0
        |get a b = get 0
        |get  a  = get 0
        |get -- = get 0
        |get  = outside 0
        |get = outside 0
        |rm a = rm 0
        |stat a = stat 0
        |ls = ls 0
        |ls  = outside 0
        |ls --budget=8 = outside 0
        |scrub = scrub 0
        |recover = recover 0
        |repair 3 = repair 0
        |repair 4 = outside 0
        |repair 3  = outside 0
        |restore 0 = restore 0
        |restore 0 01 = restore 0
        |restore 0 0 = outside 0
        |restore 0  1 = outside 0
        |restore 0 1 2 = outside 0
        |restore 0  = outside 0
        |mill 7 = outside 0
        |batch = outside 0
    ";
    for row in rows.lines() {
        let Some((line, want)) = parts_of(row) else {
            continue;
        };
        let (word, count) = line_of(alloc, line.as_bytes());
        let told = format!(in alloc; "{word} {count}")?;
        assert_eq!(rt; told.as_str(), want, "{row}");
    }
    assert_eq!(rt; line_of(alloc, b"get \xFF"), ("outside", 0));
    assert_eq!(rt; line_of(alloc, b"put a\x80 -"), ("outside", 0));
    Ok(())
}

/// What is read in a row, after its bar, and what is wanted of it.
fn parts_of(row: &str) -> Option<(&str, &str)> {
    let (_, parts) = row.split_once('|')?;
    parts.rsplit_once(" = ")
}

/// The words of a line, of which one may be empty.
fn split(alloc: Global, line: &str) -> Result<Vec<String>, Fail> {
    let mut words = Vec::new(alloc);
    for word in line.split(' ') {
        words.push(String::from_str(alloc, word)?)?;
    }
    Ok(words)
}

/// What was read, in a word.
fn asked(read: Result<Request, WordFault>) -> &'static str {
    match read {
        Ok(request) => match request.command {
            Command::Act(act) => act_word(&act),
            Command::Batch => "batch",
            Command::Mill(_) => "mill",
        },
        Err(WordFault::Usage) => "usage",
        Err(WordFault::Name(NameFault::Empty)) => "empty",
        Err(WordFault::Name(NameFault::Long { .. })) => "long",
        Err(WordFault::Name(NameFault::Control { .. })) => "control",
        Err(WordFault::Memory) => "memory",
    }
}

/// What a line was read as, in a word, and how many bytes it stores.
fn line_of(alloc: Global, line: &[u8]) -> (&'static str, usize) {
    match read_line(alloc, line, 4) {
        Ok(read) => (act_word(&read.act), read.bytes.bytes().len()),
        Err(LineFault::Outside) => ("outside", 0),
        Err(LineFault::Memory) => ("memory", 0),
    }
}

fn act_word(act: &Act) -> &'static str {
    match *act {
        Act::Put(_) => "put",
        Act::Get(_) => "get",
        Act::Remove(_) => "rm",
        Act::List => "ls",
        Act::Stat(_) => "stat",
        Act::Repair(_) => "repair",
        Act::Restore { .. } => "restore",
        Act::Scrub => "scrub",
        Act::Recover => "recover",
    }
}

/// The numbers of a command that has some, where 255 stands for a second cloud that isn't named. Of a batch two bytes of
/// the seed, of others the numbers of the options.
fn numbers(read: Result<Request, WordFault>) -> Option<(u64, u64)> {
    match read {
        Ok(request) => match request.command {
            Command::Act(Act::Repair(cloud)) => Some((u64::from(cloud), 0)),
            Command::Act(Act::Restore { first, second }) => {
                Some((u64::from(first), u64::from(second.unwrap_or(255))))
            },
            Command::Mill(number) => Some((number, 0)),
            Command::Batch => {
                let seed = request.setting.seed;
                Some((u64::from(seed[1]), u64::from(seed[16])))
            },
            _ => Some((
                u64::from(request.setting.budget),
                u64::from(request.setting.workers),
            )),
        },
        Err(_) => None,
    }
}
