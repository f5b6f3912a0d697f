// The steps that a path may have before its index.
pub const STEP_ALLOWANCE: usize = 7;

// The pieces of a template, or of a separator.
pub const PIECE_ALLOWANCE: usize = 64;

// The bytes of a template.
pub const TEMPLATE_LIMIT: usize = 4096;

// The bytes of a matcher.
pub const MATCHER_LIMIT: usize = 96;

// The bytes of a code.
pub const CODE_LIMIT: usize = 1024;
