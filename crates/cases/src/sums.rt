// The sum of what a call left in the memory lent to it.

// The sum over all places, of whatever type their numbers are.
pub(crate) fn sum_of<T: Copy + Into<u64>>(lent: &[T]) -> u64 {
    let mut sum = 0;
    for &n in lent {
        sum = (31 * (sum % 65521) + n.into() % 65521) % 65521;
    }
    sum
}
