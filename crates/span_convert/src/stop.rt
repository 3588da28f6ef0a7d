/// Why a converter goes no further.
#[derive(Clone, Copy, Debug, PartialEq, Eq)]
pub enum Stop {
    /// The input is refused; `Converter::why` tells the unit and the cause.
    Refused,
    /// The target can't hold a unit; `Converter::why` tells the unit and the fault.
    Faulted,
    /// The sink failed.
    Write,
    OutOfMemory,
}
