//! Names that are a text.
ghost use Rattle.std.specs.Prelude.{◌↔◌, IsTrue};
ghost use Rattle.ds_shape.specs.Externals.{IsCalled};

use ds_ast::Name;

/// Whether a name is this text.
pub fn is_called(name: &Name, text: &[u8]) -> bool
    ensures { IsTrue result ↔ IsCalled text.now name.now }
{
    match name {
        Name::Number(_) => false,
        Name::Text(bytes) => bytes.as_slice() == text,
    }
}
