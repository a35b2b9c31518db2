//! What must stand on the clouds of a scene.

use crate::clouds::{are_same, count, object};
use crate::ending::check_bytes;
use crate::player::Stage;
use crate::value::{bytes_of, piece_bytes};
use nc_frame::seal;
use nc_memory::MemFleet;
use nc_name::{Key, read_key};
use nc_stream::{MemSource, Source};
use sha2::{Digest, Sha256};
use std::test::Fail;

impl Stage {
    /// Looks at what these words say must stand on the clouds, and tells whether they say that.
    pub fn stands(&self, words: &[&str]) -> Result<bool, Fail> {
        match *words {
            ["unchanged"] => check_same(&self.before, &self.clouds, &self.keys)?,
            ["objects", wanted] => check_number(count(&self.clouds, &self.keys), wanted)?,
            ["size", cloud, key, wanted] => {
                check_number(object(&self.clouds, cloud.parse()?, key)?.len(), wanted)?;
            }
            ["gets", "of", "chunks", ref wanted @ ..] => self.check_gets(wanted)?,
            ["rounds", "of", ref wanted @ ..] => self.check_rounds(wanted)?,
            ["digest", cloud, key, wanted] => {
                let found = Sha256::digest(object(&self.clouds, cloud.parse()?, key)?);
                check_bytes(&found, hex::decode(self.alloc, wanted)?.as_slice())?;
            }
            ["part", key, at, ref pieces @ ..] => {
                let wanted = bytes_of(self.alloc, pieces)?;
                self.check_parts(key, at.parse()?, wanted.as_slice())?;
            }
            ["payloads", key, ref payloads @ ..] => self.check_payloads(key, payloads)?,
            ["holds", cloud, ref keys @ ..] => self.check_holds(cloud.parse()?, keys)?,
            ["each", "holds", ref keys @ ..] => {
                for cloud in 0..self.width() {
                    self.check_holds(cloud, keys)?;
                }
            }
            _ => return Ok(false),
        }
        Ok(true)
    }

    fn check_gets(&self, wanted: &[&str]) -> Result<(), Fail> {
        for (cloud, wanted) in (0_u8..255).zip(wanted) {
            if self.clouds.gets(cloud) != wanted.parse()? {
                return Err(Fail::new(format_args!("another count of gets of cloud {cloud}")));
            }
        }
        Ok(())
    }

    /// The last run had so many rounds as numbers stand here, and each had so many entries.
    fn check_rounds(&self, wanted: &[&str]) -> Result<(), Fail> {
        let rounds = self.clouds.rounds();
        if rounds != wanted.len() as u64 {
            return Err(Fail::new(format_args!("there were {rounds} rounds")));
        }
        for (round, wanted) in (0..rounds).zip(wanted) {
            check_number(self.clouds.entries(round), wanted)?;
        }
        Ok(())
    }

    /// On each cloud the object has these bytes from here on.
    fn check_parts(&self, text: &str, at: usize, wanted: &[u8]) -> Result<(), Fail> {
        for cloud in 0..self.width() {
            let object = object(&self.clouds, cloud, text)?;
            let (_, rest) = object.split_at(at.min(object.len()));
            let (part, _) = rest.split_at(wanted.len().min(rest.len()));
            check_bytes(part, wanted)?;
        }
        Ok(())
    }

    /// The cloud has objects under exactly these keys.
    fn check_holds(&self, cloud: u8, texts: &[&str]) -> Result<(), Fail> {
        for text in texts {
            object(&self.clouds, cloud, text)?;
        }
        let mut found = 0_usize;
        for key in &self.keys {
            if self.clouds.object(cloud, key).is_some() {
                found = found.saturating_add(1);
            }
        }
        if found == texts.len() {
            Ok(())
        } else {
            Err(Fail::new(format_args!("cloud {cloud} has {found} objects")))
        }
    }

    /// On each of the first clouds the object is the frame of its payload here.
    fn check_payloads(&self, text: &str, payloads: &[&str]) -> Result<(), Fail> {
        let key = read_key(text).ok_or("no key")?;
        for (cloud, payload) in (0_u8..255).zip(payloads) {
            let payload = piece_bytes(self.alloc, payload)?;
            let frame = seal(self.alloc, cloud, self.width(), &key, payload.as_slice())?;
            check_bytes(object(&self.clouds, cloud, text)?, frame.bytes())?;
        }
        Ok(())
    }
}

pub fn check_number(found: usize, wanted: &str) -> Result<(), Fail> {
    if found == wanted.parse()? {
        Ok(())
    } else {
        Err(Fail::new(format_args!("there are {found}")))
    }
}

pub fn check_same(before: &MemFleet, after: &MemFleet, keys: &[Key]) -> Result<(), Fail> {
    if are_same(before, after, keys) {
        Ok(())
    } else {
        Err(Fail::new("an object changed"))
    }
}

/// The input is "abc", and none of it was read.
pub fn check_unread(input: &mut MemSource) -> Result<(), Fail> {
    let mut left = [0; 8];
    match input.read(&mut left) {
        Ok(3) => check_bytes(&left, b"abc\0\0\0\0\0"),
        _ => Err(Fail::new("the input was read")),
    }
}
