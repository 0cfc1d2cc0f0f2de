/// How many values a program may have: two results for each of its operations.
pub const MAX_VALUES: usize = 4_096;
