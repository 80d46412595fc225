//! Meshes and printed texts.

ghost use Rattle.std.specs.Prelude.{◌≡◌};
ghost use Rattle.worm_mesh.specs.Address.{AreRadices};

use std::fmt::Debug;
use std::process::Abort;
use worm_mesh::Mesh;

/// The mesh with these radices.
pub fn mesh_of(rt: &impl Abort, radices: &[u8]) -> Mesh
    ensures value { result ≡ radices.now }
    ensures mesh { AreRadices result }
{
    Mesh::new(radices).expect(rt, "a mesh")
}

/// What was printed reads so.
pub fn reads<E: Debug>(rt: &impl Abort, printed: Result<String, E>, text: &str) {
    are_equal(rt, printed.expect(rt, "memory").as_str(), text);
}

/// What is found is what is wanted. An `assert_eq!` is proved with all that its function holds, so that one here costs
/// less than several there.
pub fn are_equal<T: PartialEq + Debug + Drop>(rt: &impl Abort, found: T, wanted: T) {
    assert_eq!(rt; found, wanted);
}
