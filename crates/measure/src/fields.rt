//! Fields of 8,000 coordinates and of 8,000 soundings, read or written so many times over.

use s57_fields::{read_sg2d, read_sg3d, write_sg2d, write_sg3d};
use s57_types::{Deep, Plane};
use std::alloc::{AllocError, Global};

/// How many rows a field has.
const ROWS: u32 = 8_000;

/// What is done with a field.
#[derive(Clone, Copy)]
pub enum Work {
    /// Coordinates (SG2D) are read.
    ReadPlane,
    /// Coordinates are written.
    WritePlane,
    /// Soundings (SG3D) are read.
    ReadDeep,
    /// Soundings are written.
    WriteDeep,
}

impl Work {
    /// The work of a name within the group.
    pub fn of(name: &str) -> Option<Work> {
        match name {
            "read_plane" => Some(Work::ReadPlane),
            "write_plane" => Some(Work::WritePlane),
            "read_deep" => Some(Work::ReadDeep),
            "write_deep" => Some(Work::WriteDeep),
            _ => None,
        }
    }
}

/// A coordinate that looks random and is the same on every machine.
fn coordinate(place: u32) -> i32 {
    place.wrapping_mul(2_654_435_761).cast_signed()
}

fn points(alloc: Global) -> Result<Plane, AllocError> {
    let mut points = Plane::make(alloc);
    for row in 0..ROWS {
        points.push((coordinate(2 * row), coordinate(2 * row + 1)))?;
    }
    Ok(points)
}

fn soundings(alloc: Global) -> Result<Deep, AllocError> {
    let mut soundings = Deep::make(alloc);
    for row in 0..ROWS {
        let sounding = (
            coordinate(3 * row),
            coordinate(3 * row + 1),
            coordinate(3 * row + 2),
        );
        soundings.push(sounding)?;
    }
    Ok(soundings)
}

/// A number for bytes that were written.
fn number_of(bytes: &[u8], round: u32) -> u64 {
    let place = round as usize;
    let byte = bytes.get(place).copied().unwrap_or(0);
    (bytes.len() as u64).wrapping_add(u64::from(byte))
}

fn plane_number(plane: &Plane, round: u32) -> u64 {
    let row = plane.as_slice().get(round as usize).copied();
    let (y, x) = row.unwrap_or((0, 0));
    u64::from(y.cast_unsigned()).wrapping_add(u64::from(x.cast_unsigned()))
}

fn deep_number(deep: &Deep, round: u32) -> u64 {
    let row = deep.as_slice().get(round as usize).copied();
    let (y, x, z) = row.unwrap_or((0, 0, 0));
    u64::from(y.cast_unsigned())
        .wrapping_add(u64::from(x.cast_unsigned()))
        .wrapping_add(u64::from(z.cast_unsigned()))
}

fn read_planes(alloc: Global, rounds: u32) -> Result<u64, AllocError> {
    let mut bytes = Vec::new(alloc);
    write_sg2d(alloc, &points(alloc)?, &mut bytes)?;
    let mut sum = 0u64;
    for round in 0..rounds {
        if let Ok(plane) = read_sg2d(alloc, &bytes) {
            sum = sum.wrapping_add(plane_number(&plane, round));
        }
    }
    Ok(sum)
}

fn write_planes(alloc: Global, rounds: u32) -> Result<u64, AllocError> {
    let plane = points(alloc)?;
    let mut sum = 0u64;
    for round in 0..rounds {
        let mut bytes = Vec::new(alloc);
        write_sg2d(alloc, &plane, &mut bytes)?;
        sum = sum.wrapping_add(number_of(&bytes, round));
    }
    Ok(sum)
}

fn read_deeps(alloc: Global, rounds: u32) -> Result<u64, AllocError> {
    let mut bytes = Vec::new(alloc);
    write_sg3d(alloc, &soundings(alloc)?, &mut bytes)?;
    let mut sum = 0u64;
    for round in 0..rounds {
        if let Ok(deep) = read_sg3d(alloc, &bytes) {
            sum = sum.wrapping_add(deep_number(&deep, round));
        }
    }
    Ok(sum)
}

fn write_deeps(alloc: Global, rounds: u32) -> Result<u64, AllocError> {
    let deep = soundings(alloc)?;
    let mut sum = 0u64;
    for round in 0..rounds {
        let mut bytes = Vec::new(alloc);
        write_sg3d(alloc, &deep, &mut bytes)?;
        sum = sum.wrapping_add(number_of(&bytes, round));
    }
    Ok(sum)
}

/// What the work answers when it is done so many times.
pub fn outcome(alloc: Global, work: Work, rounds: u32) -> Result<u64, AllocError> {
    match work {
        Work::ReadPlane => read_planes(alloc, rounds),
        Work::WritePlane => write_planes(alloc, rounds),
        Work::ReadDeep => read_deeps(alloc, rounds),
        Work::WriteDeep => write_deeps(alloc, rounds),
    }
}
