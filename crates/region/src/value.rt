// What a region says of one timer: its whole seconds, and the place of its fraction among the different fractions. The default stands at zero.
#[derive(Clone, Copy, Debug, PartialEq, Eq, Default)]
pub struct TimerValue {
    pub seconds: u16,
    pub rank: u8,
}
