//! Words of each command, with what they ask for, and words that are faulty.

use crate::{Command, Drill, FileNames, Play, Store, WordsFault, read_words};
use std::alloc::Global;
use std::test::Fail;

/// What the words after the program's name ask for; None where they are at fault.
fn asked(alloc: Global, words: &[&str]) -> Result<Option<Command>, Fail> {
    let mut owned = Vec::new(alloc);
    owned.push(String::from_str(alloc, "pooltrace")?)?;
    for word in words {
        owned.push(String::from_str(alloc, word)?)?;
    }
    match read_words(alloc, owned.as_slice()) {
        Ok(command) => Ok(Some(command)),
        Err(WordsFault::Faulty) => Ok(None),
        Err(WordsFault::NoMemory) => Err(Fail::from("no memory")),
    }
}

/// What they ask of `play`.
fn asked_play(alloc: Global, words: &[&str]) -> Result<Play, Fail> {
    match asked(alloc, words)? {
        Some(Command::Play(play)) => Ok(play),
        _ => Err(Fail::from("no play")),
    }
}

/// What they ask of `store`.
fn asked_store(alloc: Global, words: &[&str]) -> Result<Store, Fail> {
    match asked(alloc, words)? {
        Some(Command::Store(store)) => Ok(store),
        _ => Err(Fail::from("no store")),
    }
}

fn are_named(names: &FileNames, files: &[&str]) -> bool {
    let names = names.as_slice();
    names.len() == files.len()
        && names
            .iter()
            .zip(files.iter())
            .all(|(name, file)| name.as_str() == *file)
}

fn is_asked(play: &Play, numbers: (u32, u32, u32), files: &[&str]) -> bool {
    (play.batches, play.size, play.quantum) == numbers && are_named(&play.files, files)
}

#[test]
fn words_of_play(rt: HostRuntime) -> Result<(), Fail> {
    let many = ["f"; 33];
    let cases: [(&[&str], (u32, u32, u32), &[&str]); 8] = [
        (&["play", "f"], (1024, 64, 8), &["f"]),
        (&["play", "--batches", "10", "f"], (10, 64, 8), &["f"]),
        (&["play", "g", "--size=0", "f"], (1024, 0, 8), &["g", "f"]),
        (
            &["play", "f", "f", "--quantum", "3"],
            (1024, 64, 3),
            &["f", "f"],
        ),
        (
            &[
                "play",
                "--quantum=16",
                "f",
                "--size",
                "0063",
                "g",
                "--batches=4294967295",
            ],
            (4294967295, 63, 16),
            &["f", "g"],
        ),
        (
            &["play", "--size", "1", "--", "--size", "-h"],
            (1024, 1, 8),
            &["--size", "-h"],
        ),
        (
            &["play", "f", "--", "g", "--"],
            (1024, 64, 8),
            &["f", "g", "--"],
        ),
        (&["play", "a b", "é"], (1024, 64, 8), &["a b", "é"]),
    ];
    for (words, numbers, files) in &cases {
        let play = asked_play(rt.alloc(), words)?;
        assert!(rt; is_asked(&play, *numbers, files), "{words:?}: {play:?}");
    }
    let mut words = Vec::from_slice(rt.alloc(), &["play"])?;
    words.extend_from_slice(&many)?;
    let play = asked_play(rt.alloc(), words.as_slice())?;
    assert!(rt; is_asked(&play, (1024, 64, 8), &many));
    Ok(())
}

/// What the words ask of `drill`, by its numbers.
fn drill(seed: u64, processes: u32, calls: u32, quantum: u32) -> Drill {
    Drill {
        seed,
        processes,
        calls,
        quantum,
    }
}

#[test]
fn words_of_drill(rt: HostRuntime) -> Result<(), Fail> {
    let cases: [(&[&str], Drill); 4] = [
        (&["drill"], drill(1, 4, 1000, 8)),
        (&["drill", "--processes", "0"], drill(1, 0, 1000, 8)),
        (
            &["drill", "--calls=131072", "--quantum", "1"],
            drill(1, 4, 131072, 1),
        ),
        (
            &["drill", "--seed", "18446744073709551615", "--calls", "0"],
            drill(u64::MAX, 4, 0, 8),
        ),
    ];
    for (words, drill) in &cases {
        match asked(rt.alloc(), words)? {
            Some(Command::Drill(asked)) => assert_eq!(rt; asked, *drill, "{words:?}"),
            _ => return Err(Fail::from("no drill")),
        }
    }
    Ok(())
}

#[test]
fn words_of_store(rt: HostRuntime) -> Result<(), Fail> {
    let cases: [(&[&str], (u32, u32), &[&str]); 4] = [
        (&["store", "f"], (1024, 8), &["f"]),
        (&["store", "--batches", "2", "f", "g"], (2, 8), &["f", "g"]),
        (&["store", "f", "--quantum=0"], (1024, 0), &["f"]),
        (
            &["store", "--quantum", "16", "--batches=7", "--", "--size"],
            (7, 16),
            &["--size"],
        ),
    ];
    for (words, numbers, files) in &cases {
        let store = asked_store(rt.alloc(), words)?;
        let same = (store.batches, store.quantum) == *numbers && are_named(&store.files, files);
        assert!(rt; same, "{words:?}: {store:?}");
    }
    Ok(())
}

#[test]
fn faulty_words(rt: HostRuntime) -> Result<(), Fail> {
    let cases: [&[&str]; 33] = [
        &[],
        &["plays", "f"],
        &["Play", "f"],
        &["", "f"],
        &["--batches", "1", "play", "f"],
        &["play"],
        &["play", "--size", "1"],
        &["play", "--batches", "x", "f"],
        &["play", "--size", "1", "--size", "2", "f"],
        &["play", "--size=1", "f", "--size=1"],
        &["play", "--batches", "+10", "f"],
        &["play", "--batches=-0", "f"],
        &["play", "--quantum=", "f"],
        &["play", "--quantum", "", "f"],
        &["play", "--size", " 1", "f"],
        &["play", "--size", "0x10", "f"],
        &["play", "--batches", "4294967296", "f"],
        &["play", "f", "--quantum"],
        &["play", "f", "--files", "g"],
        &["play", "--help"],
        &["play", "-h", "f"],
        &["play", "--version", "f"],
        &["store"],
        &["store", "--size", "64", "f"],
        &["store", "--batches", "+2", "f"],
        &["stores", "f"],
        &["drill", "f"],
        &["drill", "--seed", "1", "--seed", "1"],
        &["drill", "--processes=4294967296"],
        &["drill", "--batches", "8"],
        &["drill", "--quantum", ""],
        &["drill", "--calls", "131073"],
        &["drill", "--seed", "18446744073709551616"],
    ];
    for words in &cases {
        let command = asked(rt.alloc(), words)?;
        assert!(rt; command.is_none(), "{words:?}: {command:?}");
    }
    Ok(())
}

#[test]
fn texts_of_faults(rt: HostRuntime) -> Result<(), Fail> {
    for (fault, text) in [
        (WordsFault::Faulty, "words"),
        (WordsFault::NoMemory, "no memory"),
    ] {
        let shown = format!(in rt.alloc(); "{fault}")?;
        assert_eq!(rt; shown.as_str(), text);
    }
    Ok(())
}
