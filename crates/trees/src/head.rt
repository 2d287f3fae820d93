//! What a node is, apart from its children.
ghost use Rattle.std.specs.Prelude.{◌≡◌};
ghost use Rattle.trees.specs.Tree.{shape, code, kind as kind_of, named, unnamed};
ghost use Rattle.trees.specs.Tests.{is_list, struct_or_list, is_enum};

use crate::codes::{ReflectKind, Shape, VariantType};
use names::Name;
use rules::leaf::Leaf;

/// What a node is, apart from its children.
#[derive(Clone, Copy, PartialEq, Eq)]
pub enum Head {
    Leaf(Leaf),
    Struct,
    Tuple,
    List,
    /// An enum's variant: what fields it has, its name, and its index in the type.
    Enum {
        kind: VariantType,
        name: Name,
        index: u16,
    },
}

impl Head {
    /// The shape. A match, as `kind`: no derive makes a list of bare cases of one that holds values.
    pub fn shape(&self) -> Shape
        ensures { result ≡ shape self.now }
    {
        match self {
            Head::Leaf(_) => Shape::Leaf,
            Head::Struct => Shape::Struct,
            Head::Tuple => Shape::Tuple,
            Head::List => Shape::List,
            Head::Enum { kind, .. } => Shape::Enum(*kind),
        }
    }

    /// The shape code.
    pub fn code(&self) -> u8
        ensures { result ≡ code self.now }
    {
        u8::from(self.shape())
    }

    /// The kind, as a fault gives it.
    pub fn kind(&self) -> ReflectKind
        ensures { result ≡ kind_of self.now }
    {
        match self {
            Head::Leaf(_) => ReflectKind::Opaque,
            Head::Struct => ReflectKind::Struct,
            Head::Tuple => ReflectKind::Tuple,
            Head::List => ReflectKind::List,
            Head::Enum { .. } => ReflectKind::Enum,
        }
    }

    /// Whether the node holds named fields.
    pub fn is_named(&self) -> bool
        ensures { result ≡ named self.now }
    {
        matches!(
            self,
            Head::Struct
                | Head::Enum {
                    kind: VariantType::Struct,
                    ..
                }
        )
    }

    /// Whether the node holds children without names.
    pub fn is_unnamed(&self) -> bool
        ensures { result ≡ unnamed self.now }
    {
        matches!(
            self,
            Head::Tuple
                | Head::List
                | Head::Enum {
                    kind: VariantType::Tuple,
                    ..
                }
        )
    }

    /// Whether the node is a List.
    pub fn is_list(&self) -> bool
        ensures { result ≡ is_list self.now }
    {
        matches!(self, Head::List)
    }

    /// Whether the node is a Struct or a List.
    pub fn is_struct_or_list(&self) -> bool
        ensures { result ≡ struct_or_list self.now }
    {
        matches!(self, Head::Struct | Head::List)
    }

    /// Whether the node is an enum.
    pub fn is_enum(&self) -> bool
        ensures { result ≡ is_enum self.now }
    {
        matches!(self, Head::Enum { .. })
    }
}
