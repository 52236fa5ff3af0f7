//! Cubes out of tables, whose conditions are tested as a test runs, and what they answer, in lists.
use hyper_cube::{Cube, CubeFault};
use std::alloc::{AllocError, Global};
use std::process::Abort;

/// The cube of m, p, d and pairs of generator and size.
pub fn cube(
    rt: &impl Abort,
    alloc: Global,
    m: u32,
    p: u32,
    d: u32,
    gens: &[(u32, u32)],
) -> Result<Cube, CubeFault> {
    assert!(rt; m >= 3 && m <= 65536);
    assert!(rt; p >= 2 && p <= 131071);
    assert!(rt; d >= 1 && d <= 64);
    assert!(rt; gens.len() <= 16);
    assert!(rt; gens.iter().all(|pair| pair.0 >= 1 && pair.0 < m));
    assert!(rt; gens.iter().all(|pair| pair.1 >= 1 && pair.1 <= m));
    Cube::new(alloc, m, p, d, gens)
}

/// Whether each dimension is good, with its generator and its size.
pub fn dimensions(alloc: Global, cube: &Cube) -> Result<Vec<(u32, u32, bool)>, AllocError> {
    let mut list = Vec::new(alloc);
    for i in 0..cube.dims() {
        list.push((cube.generator(i), cube.size(i), cube.is_good(i)))?;
    }
    Ok(list)
}

/// The product of each slot.
pub fn elements(alloc: Global, cube: &Cube) -> Result<Vec<u32>, AllocError> {
    let mut list = Vec::new(alloc);
    for slot in 0..cube.slot_count() {
        list.push(cube.element(slot))?;
    }
    Ok(list)
}

/// The index of each slot, one after another.
pub fn coordinates(alloc: Global, cube: &Cube) -> Result<Vec<u32>, AllocError> {
    let mut list = Vec::new(alloc);
    for slot in 0..cube.slot_count() {
        for i in 0..cube.dims() {
            list.push(cube.coordinate(slot, i))?;
        }
    }
    Ok(list)
}

/// The slot with one place of its index changed.
pub fn moved(rt: &impl Abort, cube: &Cube, slot: u32, i: u32, to: u32) -> u32 {
    assert!(rt; slot < cube.slot_count());
    assert!(rt; i < cube.dims());
    assert!(rt; to < cube.size(i));
    cube.moved(slot, i, to)
}

/// The slot and the power of p of the product of each slot.
pub fn located(alloc: Global, cube: &Cube) -> Result<Vec<(u32, u32)>, AllocError> {
    let mut list = Vec::new(alloc);
    for slot in 0..cube.slot_count() {
        let product = cube.element(slot);
        if product < cube.m() {
            list.push(cube.locate(product))?;
        }
    }
    Ok(list)
}
