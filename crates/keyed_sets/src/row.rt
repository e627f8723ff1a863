ghost use Rattle.std.specs.Prelude.{◌≡◌, ◌≤◌, ◌<◌, ◌^◌};
ghost use Rattle.keyed_sets.specs.Layout.{row_length, end_of};

/// The lengths of a set's rows.
#[derive(Clone, Copy, Debug, PartialEq, Eq)]
pub struct RowShape {
    pub key: u16,
    pub body: u16,
}

/// A row's length in a page.
pub(crate) fn length_of(shape: RowShape) -> usize
    ensures { result ≡ row_length shape }
{
    usize::from(shape.key) + usize::from(shape.body)
}

/// Where so many rows end in a page.
pub(crate) fn end_of(shape: RowShape, count: usize) -> usize
    requires { count < 2 ^ 32 }
    ensures { result ≡ end_of shape count }
{
    16 + length_of(shape) * count
}
