use super::*;
use Verdict::{All, CheckLeast, Lose, Most};

// A list, what it says of some words, and its winner.
const ROUNDS: &[(&[u64], &[(u64, Verdict)], u64)] = &[
    (&[9], &[(9, All), (5, Lose)], 9),
    (&[5, 9], &[(5, CheckLeast), (9, Lose), (3, Lose)], 5),
    (&[9, 9], &[(9, All), (0, Lose)], 9),
    (&[5, 5, 9], &[(5, Most), (9, Lose)], 5),
    (&[5, 9, 9], &[(9, Most), (5, Lose), (3, Lose)], 9),
    (&[9, 5, 7], &[(5, CheckLeast), (7, Lose), (9, Lose)], 5),
    (&[5, 5, 9, 9], &[(5, CheckLeast), (9, Lose)], 5),
    (&[9, 7, 9, 9], &[(9, Most), (7, Lose)], 9),
    (&[9, 7, 5, 9], &[(5, CheckLeast), (9, Lose), (7, Lose)], 5),
    (&[9, 9, 9, 9], &[(9, All), (8, Lose)], 9),
];

#[test]
fn rounds(rt: HostRuntime) {
    for (list, verdicts, winner) in ROUNDS {
        for (mine, verdict) in *verdicts {
            assert_eq!(rt; judge(list, *mine), *verdict, "{list:?} {mine}");
        }
        assert_eq!(rt; settle(list), *winner, "{list:?}");
    }
}
