// Lists of a few items, which are held in place.
ghost use Rattle.std.specs.Prelude.{IsTrue, nat_le};

mod methods;
#[cfg(test)]
mod tests;

// A list of at most N items: the first `count` of those held here. It can be copied, as rows are, which the library's list of
// this kind cannot.
#[derive(Copy)]
pub struct Few<T: Copy, const N: usize> {
    count: usize,
    held: [T; N],
    ghost within: { IsTrue (nat_le count N) },
}
