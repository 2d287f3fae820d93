//! What two walks ask of the heads of nodes.
ghost use Rattle.std.specs.Prelude.{◌≡◌};
ghost use Rattle.trees.specs.Equal.{alike};

use trees::head::Head;

/// Whether two heads are of one code and, if they are enums, of one variant name. Not `==`, which would ask the
/// index and the leaf too.
pub fn alike(a: &Head, b: &Head) -> bool
    ensures { result ≡ alike a.now b.now }
{
    match (a, b) {
        (
            Head::Enum { kind, name, .. },
            Head::Enum {
                kind: other,
                name: its,
                ..
            },
        ) => *kind == *other && *name == *its,
        _ => a.shape() == b.shape(),
    }
}
