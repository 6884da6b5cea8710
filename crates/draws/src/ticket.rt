// Which outcome a draw picks.
ghost use Rattle.std.specs.Prelude.{◌≡◌, ◌<◌, ◌≤◌, length, IfSome, MatchOption, Some};
ghost use Rattle.draws.specs.Tickets.{EveryDrawPicksOneOutcome, EveryOutcomeHasItsOwnStretch, EveryOutcomeHasItsShareOfDraws, allowed, outcomes_in, pick_by};
ghost use Rattle.rows.specs.Plans.{PlanRows};
ghost use Rattle.runs.specs.Plans.{weights as weights_in};
ghost use Rattle.runs.specs.Runs.{picked};
ghost use Rattle.runs.specs.Ticks.{ticket as ticket_of};

use rows::tables::OutcomeRow;

// The ticket of a draw: the draw, out of 2^32, as a part of all the weights.
pub fn ticket(draw: u32, weights: u64) -> u64
    ensures value { result ≡ ticket_of draw weights }
    ensures below { 1 ≤ weights → result < weights }
{
    (u128::from(draw) * u128::from(weights) / (1 << 32)) as u64
}

// The sum of the weights, if it is from 1 to 65535.
#[tactic(auto, using(crate::proofs::Turns::weights_turn, crate::proofs::Turns::weights_end))]
fn total(outcomes: &[OutcomeRow]) -> Option<u16>
    ensures { (p : PlanRows) → result ≡ allowed (weights_in (outcomes_in p outcomes.now)) }
{
    let mut sum: u16 = 0;
    for outcome in outcomes {
        sum = sum.checked_add(outcome.weight)?;
    }
    (sum > 0).then_some(sum)
}

// The place of the first outcome whose weights so far, its own with them, exceed the ticket, if some do.
#[tactic(auto, using(crate::proofs::Turns::picked_turn, crate::proofs::Turns::passed_turn, crate::proofs::Turns::picked_end))]
fn place_of(outcomes: &[OutcomeRow], ticket: u64) -> Option<usize>
    ensures place { (p : PlanRows) → MatchOption result (picked (outcomes_in p outcomes.now) ticket ≡ length outcomes.now) (λ n. n ≡ picked (outcomes_in p outcomes.now) ticket) }
    ensures an_outcome { IfSome result (λ n. n < length outcomes.now) }
{
    let mut left = ticket;
    for (place, outcome) in outcomes.iter().enumerate() {
        let weight = u64::from(outcome.weight);
        if weight > left {
            return Some(place);
        }
        left -= weight;
    }
    None
}

// The place of the outcome that a draw picks. Where the weights do not sum to a number from 1 to 65535, as where there is no outcome, it picks none.
#[tactic(auto, using(crate::proofs::Shares::every_draw_picks_one_outcome))]
pub fn pick(outcomes: &[OutcomeRow], draw: u32) -> Option<usize>
    ensures every_draw_picks_one_outcome { EveryDrawPicksOneOutcome }
    ensures every_outcome_has_its_own_stretch { EveryOutcomeHasItsOwnStretch }
    ensures every_outcome_has_its_share_of_draws { EveryOutcomeHasItsShareOfDraws }
    ensures answer { (p : PlanRows) → result ≡ pick_by (outcomes_in p outcomes.now) draw }
    ensures picked { (p : PlanRows) → 1 ≤ weights_in (outcomes_in p outcomes.now) → weights_in (outcomes_in p outcomes.now) ≤ 65535 → result ≡ Some (picked (outcomes_in p outcomes.now) (ticket_of draw (weights_in (outcomes_in p outcomes.now)))) }
    ensures an_outcome { IfSome result (λ n. n < length outcomes.now) }
{
    let weights = total(outcomes)?;
    place_of(outcomes, ticket(draw, u64::from(weights)))
}

#[cfg(test)]
mod tests {
    use crate::ticket::{pick, ticket};
    use rows::tables::OutcomeRow;

    fn outcome(weight: u16) -> OutcomeRow {
        OutcomeRow {
            weight,
            ..OutcomeRow::default()
        }
    }

    #[test]
    fn the_last_of_four_tickets(rt: HostRuntime) {
        assert_eq!(rt; ticket(3221225471, 4), 2);
        assert_eq!(rt; ticket(3221225472, 4), 3);
    }

    #[test]
    fn the_first_and_the_last_draw(rt: HostRuntime) {
        assert_eq!(rt; ticket(0, 1), 0);
        assert_eq!(rt; ticket(u32::MAX, 1), 0);
        assert_eq!(rt; ticket(0, 65535), 0);
        assert_eq!(rt; ticket(u32::MAX, 65535), 65534);
    }

    #[test]
    fn an_outcome_takes_its_own_stretch(rt: HostRuntime) {
        let outcomes = [outcome(1), outcome(2), outcome(1)];
        assert_eq!(rt; pick(&outcomes, 0), Some(0));
        assert_eq!(rt; pick(&outcomes, 1073741824), Some(1));
        assert_eq!(rt; pick(&outcomes, 3221225471), Some(1));
        assert_eq!(rt; pick(&outcomes, 3221225472), Some(2));
    }

    #[test]
    fn weights_off_their_limits_pick_nothing(rt: HostRuntime) {
        assert_eq!(rt; pick(&[], 7), None);
        assert_eq!(rt; pick(&[outcome(0)], 7), None);
        assert_eq!(rt; pick(&[outcome(65535), outcome(1)], 7), None);
        assert_eq!(rt; pick(&[outcome(65535)], u32::MAX), Some(0));
    }
}
