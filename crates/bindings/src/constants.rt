//! Special constants: the numbers of its call that a shader cannot see on Direct3D 12 by itself.
ghost use Rattle.std.specs.Prelude.{◌≡◌, [], ◌∷◌};
ghost use Rattle.bindings.specs.Constants.{signed32, bits32, words_of, constants};

/// The three words of a draw or of a dispatch, `SpecialConstants` in the Rust.
#[derive(Clone, Copy)]
pub struct SpecialConstants {
    /// The first vertex of a draw, or the first count of a dispatch. A number from 2^31 on is kept
    /// by its 32 bits, as a negative one.
    pub first_vertex_or_x: i32,
    /// The first instance of a draw, or the second count of a dispatch.
    pub first_instance_or_y: u32,
    /// 0 for a draw, or the third count of a dispatch.
    pub unused_or_z: u32,
}

impl SpecialConstants {
    /// What a draw's shader is told.
    pub fn from_draw(first_vertex: u32, first_instance: u32) -> SpecialConstants
        ensures value { result ≡ constants first_vertex first_instance 0 }
        ensures words { words_of result ≡ first_vertex ∷ first_instance ∷ 0 ∷ [] }
    {
        SpecialConstants::from_dispatch(first_vertex, first_instance, 0)
    }

    /// What a dispatch's shader is told: how many workgroups there are in each direction.
    pub fn from_dispatch(x: u32, y: u32, z: u32) -> SpecialConstants
        ensures value { result ≡ constants x y z }
        ensures words { words_of result ≡ x ∷ y ∷ z ∷ [] }
    {
        SpecialConstants {
            first_vertex_or_x: x.cast_signed(),
            first_instance_or_y: y,
            unused_or_z: z,
        }
    }

    /// The words as `SetRoot32BitConstant` writes them: the first number by its 32 bits.
    pub fn words(&self) -> [u32; 3]
        ensures { result ≡ words_of self.now }
    {
        [
            self.first_vertex_or_x.cast_unsigned(),
            self.first_instance_or_y,
            self.unused_or_z,
        ]
    }
}
