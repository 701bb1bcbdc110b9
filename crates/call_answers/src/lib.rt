// What the calls answer and what one is given by value, as C has it. Each struct stands once: a call has it, and the engine and the C interface hand
// it on. A call that is refused before it does anything answers the number and zeros; one that stops on its way answers how far it came.
#![tactic(auto)]

ghost use Rattle.std.specs.Prelude.{◌≡◌};
ghost use Rattle.refusals.specs.Refusals.{number_of};
ghost use Rattle.call_answers.specs.Refused.{refused_writing, refused_advance, refused_feed, refused_reading, refused_channels};

use refusals::Refusal;

// The number, and the bytes written.
#[repr(C)]
#[derive(Clone, Copy)]
pub struct Written {
    pub number: u64,
    pub bytes: u64,
}

impl From<Refusal> for Written {
    ghost from_gives = { λ refusal answer. answer ≡ refused_writing (number_of refusal) };

    fn from(refusal: Refusal) -> Written {
        Written {
            number: u64::from(refusal),
            bytes: 0,
        }
    }
}

// The number, the instants done, their steps, and the trace bytes written.
#[repr(C)]
#[derive(Clone, Copy, Default)]
pub struct Advanced {
    pub number: u64,
    pub instants: u64,
    pub steps: u64,
    pub trace_bytes: u64,
}

impl From<Refusal> for Advanced {
    ghost from_gives = { λ refusal answer. answer ≡ refused_advance (number_of refusal) };

    fn from(refusal: Refusal) -> Advanced {
        Advanced {
            number: u64::from(refusal),
            instants: 0,
            steps: 0,
            trace_bytes: 0,
        }
    }
}

// The number, the bags of a feed whose own calls succeeded, the instants done, their steps, and the trace bytes written.
#[repr(C)]
#[derive(Clone, Copy)]
pub struct Fed {
    pub number: u64,
    pub bags: u64,
    pub instants: u64,
    pub steps: u64,
    pub trace_bytes: u64,
}

impl From<Refusal> for Fed {
    ghost from_gives = { λ refusal answer. answer ≡ refused_feed (number_of refusal) };

    fn from(refusal: Refusal) -> Fed {
        Fed {
            number: u64::from(refusal),
            bags: 0,
            instants: 0,
            steps: 0,
            trace_bytes: 0,
        }
    }
}

// The number; phase and last moment of an atomic; the next due moment of the whole model.
#[repr(C)]
#[derive(Clone, Copy)]
pub struct Reading {
    pub number: u64,
    pub phase: u64,
    pub last: u64,
    pub next_due: u64,
}

impl From<Refusal> for Reading {
    ghost from_gives = { λ refusal answer. answer ≡ refused_reading (number_of refusal) };

    fn from(refusal: Refusal) -> Reading {
        Reading {
            number: u64::from(refusal),
            phase: 0,
            last: 0,
            next_due: 0,
        }
    }
}

// Where a channel's bag lies in the buffer of all bags.
#[repr(C)]
#[derive(Clone, Copy)]
pub struct Place {
    pub start: u64,
    pub size: u64,
}

#[repr(C)]
#[derive(Drop)]
pub struct Places {
    pub channel: [Place; 8],
}

// The number of the whole call, and what is answered for each channel.
#[repr(C)]
#[derive(Drop)]
pub struct Channels {
    pub number: u64,
    pub channel: [Advanced; 8],
}

impl From<Refusal> for Channels {
    ghost from_gives = { λ refusal answer. answer ≡ refused_channels (number_of refusal) };

    fn from(refusal: Refusal) -> Channels {
        Channels {
            number: u64::from(refusal),
            channel: [Advanced::default(); 8],
        }
    }
}
