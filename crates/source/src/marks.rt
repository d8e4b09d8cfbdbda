// The marks of specs/Tokens.antt: keywords, the arrow, and characters that are neither operators nor relations.
pub const MARK_BEGIN: u32 = 128;

pub const MARK_END: u32 = 129;

pub const MARK_INTEGER: u32 = 130;

pub const MARK_IF: u32 = 131;

pub const MARK_THEN: u32 = 132;

pub const MARK_ELSE: u32 = 133;

pub const MARK_ARROW: u32 = 134;

pub const MARK_START: u32 = 135;

pub const MARK_FINISH: u32 = 136;

pub const MARK_AND: u32 = 137;

pub const MARK_OR: u32 = 138;

pub const MARK_OPEN: u32 = 40;

pub const MARK_CLOSE: u32 = 41;

pub const MARK_COMMA: u32 = 44;

pub const MARK_COLON: u32 = 58;

pub const MARK_INVERT: u32 = 92;
