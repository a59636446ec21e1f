//! A source, a sink, a device and a gate.

ghost use Rattle.std.specs.Prelude.{Some, None};
ghost use Rattle.ame_device.specs.Calls.{told};
ghost use Rattle.ame_device.specs.declared.told.DeviceKind.{DeviceKind};

use ame_device::{Device, DeviceFail, Heard};
use ame_io::{Failed, Sink, Source};
use ame_worker::{Gate, Point};
use std::alloc::Global;

/// Gives a text that the program has, and never fails.
#[derive(Drop)]
pub struct Text {
    pub left: &'static [u8],
}

impl Source for Text {
    ghost left = { λ s. Some s.left.now };

    ghost faults = { λ s. 0 };

    fn read(&mut self, buf: &mut [u8]) -> Result<usize, Failed> {
        let n = buf.len().min(self.left.len());
        let (front, rest) = self.left.split_at(n);
        buf[..n].copy_from_slice(front);
        self.left = rest;
        Ok(n)
    }
}

/// Keeps what is written, and fails if there is no memory.
#[derive(Drop)]
pub struct Page {
    pub bytes: Vec<u8>,
    faults: u64,
}

impl Page {
    pub fn new(alloc: Global) -> Page {
        Page {
            bytes: Vec::new(alloc),
            faults: 0,
        }
    }
}

impl Sink for Page {
    ghost written = { λ s. Some s.bytes.items };

    ghost faults = { λ s. s.faults };

    fn write(&mut self, piece: &[u8]) -> Result<usize, Failed> {
        match self.bytes.extend_from_slice(piece) {
            Ok(()) => Ok(piece.len()),
            Err(_) => {
                self.faults = self.faults.saturating_add(1);
                Err(Failed)
            }
        }
    }
}

/// Answers twice what it is called with, and keeps no list of its calls.
#[derive(Drop)]
pub struct Doubler;

impl Device for Doubler {
    ghost device_told = { λ _. told DeviceKind.Other None 0 };

    fn call(&mut self, argument: i64) -> Result<i64, DeviceFail> {
        Ok(argument.wrapping_mul(2))
    }

    fn heard(&self) -> Option<&[Heard]> {
        None
    }
}

/// Lets every worker pass.
#[derive(Clone, Copy)]
pub struct Watch;

impl Gate for Watch {
    fn pass(&self, _seat: u32, _point: Point) {}
}
