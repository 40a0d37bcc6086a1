// Memory to lend to the calls.
ghost use Rattle.std.specs.Prelude.{◌≡◌, IfOk, vec_len};

use levels::Sizes;
use levels::guards::{Place, Position};
use std::alloc::{AllocError, Global};

// As much as the calls of a level need.
#[derive(Drop)]
pub struct Memory {
    pub bytes: Vec<u8>,
    pub places: Vec<Place>,
    pub positions: Vec<Position>,
}

impl Memory {
    pub fn new(heap: Global, sizes: &Sizes) -> Result<Memory, AllocError>
        ensures bytes { IfOk result (λ memory. vec_len memory.bytes ≡ sizes.now.work_bytes) }
        ensures places { IfOk result (λ memory. vec_len memory.places ≡ sizes.now.work_places) }
        ensures positions { IfOk result (λ memory. vec_len memory.positions ≡ sizes.now.work_places) }
    {
        let bytes = vec![in heap; 0u8; sizes.work_bytes]?;
        let places = vec![in heap; 0u16; sizes.work_places]?;
        let positions = vec![in heap; 0u32; sizes.work_places]?;
        Ok(Memory {
            bytes,
            places,
            positions,
        })
    }
}
