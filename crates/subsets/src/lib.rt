// How many subsets of s elements a set of d elements has, read from a table.
#![tactic(auto)]

ghost use Rattle.subsets.specs.Choose.{CountsSublists, known, tabled};
ghost use Rattle.std.specs.Prelude.{◌≡◌, ◌+◌, ◌*◌, if◌then◌else◌, Some, None};

// The largest set and the largest subsets that the table knows.
const LARGEST_SET: usize = 32;

const LARGEST_SUBSET: usize = 5;

// A row for each set, from the empty one up: its subsets of no element, of one, and so on.
const ROW: usize = 6;

const COUNTS: [u32; 198] = [
    1, 0, 0, 0, 0, 0, 1, 1, 0, 0, 0, 0, 1, 2, 1, 0, 0, 0, 1, 3, 3, 1, 0, 0, 1, 4, 6, 4, 1, 0, 1, 5,
    10, 10, 5, 1, 1, 6, 15, 20, 15, 6, 1, 7, 21, 35, 35, 21, 1, 8, 28, 56, 70, 56, 1, 9, 36, 84,
    126, 126, 1, 10, 45, 120, 210, 252, 1, 11, 55, 165, 330, 462, 1, 12, 66, 220, 495, 792, 1, 13,
    78, 286, 715, 1287, 1, 14, 91, 364, 1001, 2002, 1, 15, 105, 455, 1365, 3003, 1, 16, 120, 560,
    1820, 4368, 1, 17, 136, 680, 2380, 6188, 1, 18, 153, 816, 3060, 8568, 1, 19, 171, 969, 3876,
    11628, 1, 20, 190, 1140, 4845, 15504, 1, 21, 210, 1330, 5985, 20349, 1, 22, 231, 1540, 7315,
    26334, 1, 23, 253, 1771, 8855, 33649, 1, 24, 276, 2024, 10626, 42504, 1, 25, 300, 2300, 12650,
    53130, 1, 26, 325, 2600, 14950, 65780, 1, 27, 351, 2925, 17550, 80730, 1, 28, 378, 3276, 20475,
    98280, 1, 29, 406, 3654, 23751, 118755, 1, 30, 435, 4060, 27405, 142506, 1, 31, 465, 4495,
    31465, 169911, 1, 32, 496, 4960, 35960, 201376,
];

// Where the table has the count of the subsets of s elements, of a set of d.
fn place(d: usize, s: usize) -> Option<usize>
    ensures { result ≡ (if known d s then Some (d * ROW + s) else None) }
{
    if d <= LARGEST_SET && s <= LARGEST_SUBSET {
        Some(d * ROW + s)
    } else {
        None
    }
}

// The count of the subsets of s elements, of a set of d; none past the table's limits.
pub fn subset_count(d: usize, s: usize) -> Option<u32>
    ensures counted { result ≡ tabled d s }
    ensures sublists { CountsSublists }
{
    let k = place(d, s)?;
    Some(COUNTS[k])
}

#[cfg(test)]
mod tests {
    use super::subset_count;

    #[test]
    fn counts_subsets(rt: HostRuntime) {
        assert_eq!(rt; subset_count(0, 0), Some(1));
        assert_eq!(rt; subset_count(4, 2), Some(6));
        assert_eq!(rt; subset_count(3, 5), Some(0));
        assert_eq!(rt; subset_count(32, 5), Some(201376));
    }

    #[test]
    fn refuses_past_the_table(rt: HostRuntime) {
        assert_eq!(rt; subset_count(33, 0), None);
        assert_eq!(rt; subset_count(3, 6), None);
    }
}
