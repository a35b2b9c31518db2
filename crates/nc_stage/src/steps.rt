//! The lines of a scene that run nothing.

use crate::clouds::{NONE, all_clouds, arranged, fill, object, place, place_frame, width_of};
use crate::player::{Stage, fate_of};
use crate::value::{bytes_of, piece_bytes};
use nc_name::read_key;
use std::test::Fail;

impl Stage {
    /// Sets how the next run is made, and tells whether these words say that.
    pub fn prepare(&mut self, words: &[&str]) -> Result<bool, Fail> {
        match *words {
            ["clouds", count] => *self = Stage::new(self.alloc, count.parse()?)?,
            ["reads", "up", "to", most] => self.next.reads_up_to = most.parse()?,
            ["read", nth, "fails"] => self.next.failing_read = nth.parse()?,
            ["writes", "up", "to", most] => self.next.writes_up_to = most.parse()?,
            ["write", nth, "fails"] => self.next.failing_write = nth.parse()?,
            ["tells", "up", "to", most] => self.next.tells_up_to = most.parse()?,
            ["tell", nth, "fails"] => self.next.failing_tell = nth.parse()?,
            ["entry", nth, "fails", "leaving", fate] => {
                self.failing = (nth.parse()?, fate_of(fate)?);
            }
            _ => return Ok(false),
        }
        Ok(true)
    }

    /// Changes the clouds, and tells whether these words say that.
    pub fn change(&mut self, words: &[&str]) -> Result<bool, Fail> {
        match *words {
            ["rotate"] => self.rotate()?,
            ["lose", cloud] => self.clouds = self.without(cloud.parse()?, NONE)?,
            ["lose", cloud, key] => self.lose(cloud.parse()?, key)?,
            ["cut", cloud, key] => self.cut(cloud.parse()?, key)?,
            ["copy", from, key, "to", to] => self.copy_object(from.parse()?, key, to.parse()?)?,
            _ => return self.plant(words),
        }
        Ok(true)
    }

    /// Places objects, and tells whether these words say that.
    fn plant(&mut self, words: &[&str]) -> Result<bool, Fail> {
        match *words {
            ["raw", cloud, key, ref pieces @ ..] => {
                let key = read_key(key).ok_or("no key")?;
                let bytes = bytes_of(self.alloc, pieces)?;
                place(&mut self.clouds, cloud.parse()?, &key, bytes.as_slice())?;
            }
            ["seal", "each", key, ref payloads @ ..] => {
                for (cloud, payload) in (0_u8..255).zip(payloads) {
                    self.seal(cloud, cloud, self.width(), key, payload)?;
                }
            }
            ["seal", "all", key, payload] => {
                for cloud in 0..self.width() {
                    self.seal(cloud, cloud, self.width(), key, payload)?;
                }
            }
            ["seal", cloud, "as", said, "of", width, key, payload] => {
                self.seal(cloud.parse()?, said.parse()?, width.parse()?, key, payload)?;
            }
            ["seal", cloud, key, payload] => {
                let cloud = cloud.parse()?;
                self.seal(cloud, cloud, self.width(), key, payload)?;
            }
            _ => return Ok(false),
        }
        Ok(true)
    }

    /// Places the frame of a payload on a cloud, made for a cloud of so many.
    fn seal(
        &mut self,
        cloud: u8,
        said: u8,
        width: u8,
        key: &str,
        payload: &str,
    ) -> Result<(), Fail> {
        let payload = piece_bytes(self.alloc, payload)?;
        place_frame(
            self.alloc,
            &mut self.clouds,
            cloud,
            (said, width),
            key,
            payload.as_slice(),
        )
    }

    fn rotate(&mut self) -> Result<(), Fail> {
        let mut order = all_clouds(self.alloc, &self.clouds)?;
        order.push(0)?;
        let rest = order.as_slice().get(1..).ok_or("no cloud")?;
        self.clouds = arranged(self.alloc, &self.clouds, &self.keys, rest)?;
        Ok(())
    }

    /// An object of a cloud is gone.
    fn lose(&mut self, cloud: u8, text: &str) -> Result<(), Fail> {
        let key = read_key(text).ok_or("no key")?;
        let mut rest = self.without(cloud, NONE)?;
        fill(
            &mut rest,
            cloud,
            &self.clouds,
            cloud,
            &self.keys,
            Some(&key),
        )?;
        self.clouds = rest;
        Ok(())
    }

    /// The last byte of an object is gone.
    fn cut(&mut self, cloud: u8, text: &str) -> Result<(), Fail> {
        let key = read_key(text).ok_or("no key")?;
        let mut bytes = Vec::new(self.alloc);
        bytes.extend_from_slice(object(&self.clouds, cloud, text)?)?;
        bytes.pop();
        place(&mut self.clouds, cloud, &key, bytes.as_slice())
    }

    /// An object of a cloud stands on another as well.
    fn copy_object(&mut self, from: u8, text: &str, to: u8) -> Result<(), Fail> {
        let key = read_key(text).ok_or("no key")?;
        let mut bytes = Vec::new(self.alloc);
        bytes.extend_from_slice(object(&self.clouds, from, text)?)?;
        place(&mut self.clouds, to, &key, bytes.as_slice())
    }

    /// The number of clouds, as a number of a frame.
    pub fn width(&self) -> u8 {
        width_of(&self.clouds)
    }
}
