// The limits, widths and numbers that the code names, once each: those of the papers, with the numbers of the definitions' `Limits`, and the
// sizes of the tables by port, which follow from them.

// ---- the model file
#![tactic(auto)]

pub const MAX_COMPONENTS: usize = 64;

pub const MAX_ANCESTORS: usize = 8;

pub const MAX_OWN_PHASES: u8 = 64;

pub const MAX_PHASES: usize = 512;

pub const MAX_OUTPUTS: u8 = 4;

pub const MAX_RULES: usize = 1024;

pub const MAX_COUPLINGS: usize = 1024;

pub const MAX_ROUTES: u16 = 1024;

pub const PORT_COUNT: u8 = 4;

pub const MAX_ADVANCE: u32 = 1000000000;

pub const NEVER_FIELD: u32 = 4294967295;

// The byte of a fifth section.
pub const HALF_OPEN_BYTE: u8 = 2;

// ---- widths of counts and records
pub const COUNT_SIZE: usize = 2;

pub const COMPONENT_SIZE: usize = 5;

pub const PHASE_SIZE: usize = 18;

pub const RULE_SIZE: usize = 18;

pub const COUPLING_SIZE: usize = 4;

pub const FIFTH_SIZE: usize = 3;

// ---- tables by port: a component has four inputs and four outputs, its input port p is node 8 c + p, its output port p node 8 c + 4 + p
pub const PORT_NODES: usize = 8;

pub const OUTPUTS_AT: usize = 4;

pub const MAX_NODES: usize = PORT_NODES * MAX_COMPONENTS;

// Ways are counted up to one more than the routes that a model may have.
pub const WAYS_CAP: u16 = MAX_ROUTES + 1;

// ---- a saved run: open moment (8) and atomic count (2), then for each atomic its phase (1) and last moment (8)
pub const RUN_COUNT_AT: usize = 8;

pub const RUN_HEAD_SIZE: usize = 10;

pub const RUN_ENTRY_SIZE: usize = 9;

// ---- calls: a message has port (1) and value (2), a trace record begins with moment (8), step (2) and message count (2)
pub const MESSAGE_SIZE: usize = 3;

pub const RECORD_STEP_AT: usize = 8;

pub const RECORD_COUNT_AT: usize = 10;

pub const RECORD_HEAD: usize = 12;

// Columns begin with the number of records, in 4 bytes.
pub const COLUMNS_HEAD: usize = 4;

pub const MAX_RECORDS: usize = 4294967295;

pub const MAX_GIVEN: usize = 16;

pub const MAX_STEPS: u64 = 1024;

pub const MAX_MOMENT: u64 = 1000000000000;

// The latest open moment: one past the latest moment to which a run is advanced.
pub const LATEST_OPENING: u64 = MAX_MOMENT + 1;

// The latest number stands for never.
pub const NEVER_MOMENT: u64 = 18446744073709551615;

// A feed of bags: how many there may be, and the head of one, its moment and its message count.
pub const MAX_BAGS: u16 = 1000;

pub const BAG_HEAD: usize = 9;

pub const BAG_COUNT_AT: usize = 8;

// More steps than any call can do.
pub const NO_LIMIT: u64 = 18446744073709551615;

// Runs that a call advances as channels.
pub const MAX_CHANNELS: u64 = 8;

// The position of a rule, in the table of deciding rules two bytes: this one stands for none.
pub const NO_POSITION: u16 = 65535;

pub const POSITION_SIZE: usize = 2;

// A route carries at most so many messages into an atomic.
pub const MESSAGES_IN: usize = 16;

// Words for the messages of a bag. A model with few routes, as most have, gets a small buffer, so that a short call does not pay for filling a
// large one with zeros.
pub const FEW_ROUTES: u16 = 64;

pub const FEW_WORDS: usize = MESSAGES_IN * 64;

pub const MOST_WORDS: usize = MESSAGES_IN * 1024;
