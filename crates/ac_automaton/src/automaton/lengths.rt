//! How long the shortest and the longest of a list of patterns are.
ghost use Rattle.std.specs.Prelude.{◌≡◌};
ghost use Rattle.ac_util.specs.Patterns.{longest_len, shortest_len};

use ac_util::patterns::Patterns;
use std::alloc::Allocator;

/// Returns how many bytes the shortest pattern has, or `usize::MAX` without patterns.
pub(crate) fn shortest_of<A: Allocator>(patterns: &Patterns<A>) -> usize
    ensures { result ≡ shortest_len patterns.now }
{
    let mut shortest = usize::MAX;
    for number in 0..patterns.len() {
        shortest = shortest.min(patterns.get(number).len());
    }
    shortest
}

/// Returns how many bytes the longest pattern has, or 0 without patterns.
pub(crate) fn longest_of<A: Allocator>(patterns: &Patterns<A>) -> usize
    ensures { result ≡ longest_len patterns.now }
{
    let mut longest: usize = 0;
    for number in 0..patterns.len() {
        longest = longest.max(patterns.get(number).len());
    }
    longest
}
