// W-206: why a key is refused: the extended status code, and the word that caused it.
use layout::sct;

#[derive(Clone, Copy)]
pub struct Refusal {
    pub code: u16,
    pub word: u8,
}

// One for each row of the key table, with the name that its law has in model's KeyTable.
impl Refusal {
    // "any, locked", which is no word of the key
    pub const KEY_LOCKED: Refusal = Refusal {
        code: sct::LOCKED,
        word: sct::LOCK_WORD,
    };

    pub const KEY_ACTION: Refusal = Refusal {
        code: sct::INVALID_ACTION,
        word: sct::ACTION_WORD,
    };

    // Action 1 (W-202)
    pub const LONG_FUNCTION: Refusal = Refusal {
        code: sct::INVALID_LONG_FUNCTION,
        word: sct::FUNCTION_WORD,
    };

    pub const LONG_LBA: Refusal = Refusal {
        code: sct::LBA_OUT_OF_RANGE,
        word: sct::LBA_WORD,
    };

    // "2 fill"; "6 where the sum alone is at fault": Start is judged before the sum
    pub const FILL_FUNCTION: Refusal = Refusal {
        code: sct::INVALID_FUNCTION,
        word: sct::FUNCTION_WORD,
    };

    pub const FILL_START: Refusal = Refusal {
        code: sct::LBA_OUT_OF_RANGE,
        word: sct::START_WORD,
    };

    pub const FILL_SUM: Refusal = Refusal {
        code: sct::LBA_OUT_OF_RANGE,
        word: sct::COUNT_WORD,
    };

    // "3 timers"
    pub const TIMER_FUNCTION: Refusal = Refusal {
        code: sct::INVALID_TIMER_FUNCTION,
        word: sct::FUNCTION_WORD,
    };

    pub const TIMER_NAME: Refusal = Refusal {
        code: sct::INVALID_TIMER_SELECTION,
        word: sct::SELECTION_WORD,
    };

    pub const TIMER_READ: Refusal = Refusal {
        code: sct::READ_TIMER_BELOW_MINIMUM,
        word: sct::VALUE_WORD,
    };

    pub const TIMER_WRITE: Refusal = Refusal {
        code: sct::WRITE_TIMER_BELOW_MINIMUM,
        word: sct::VALUE_WORD,
    };

    // "4 feature"
    pub const FEATURE_FUNCTION: Refusal = Refusal {
        code: sct::INVALID_FEATURE_FUNCTION,
        word: sct::FUNCTION_WORD,
    };

    pub const FEATURE_NAME: Refusal = Refusal {
        code: sct::INVALID_FEATURE,
        word: sct::SELECTION_WORD,
    };

    pub const FEATURE_STATE: Refusal = Refusal {
        code: sct::INVALID_STATE,
        word: sct::VALUE_WORD,
    };

    pub const FEATURE_OPTION: Refusal = Refusal {
        code: sct::INVALID_OPTION,
        word: sct::OPTION_WORD,
    };

    // "5 table"
    pub const TABLE_FUNCTION: Refusal = Refusal {
        code: sct::INVALID_FUNCTION,
        word: sct::FUNCTION_WORD,
    };

    pub const TABLE_NAME: Refusal = Refusal {
        code: sct::INVALID_TABLE,
        word: sct::SELECTION_WORD,
    };
}
