// How the way from one point to another goes on.

// By the edge of a code, or over a point: to that point and then from it.
#[derive(Clone, Copy)]
pub enum Link {
    Direct(u16),
    Over(u8),
}
