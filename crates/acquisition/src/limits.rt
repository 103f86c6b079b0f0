/// How many objects are asked for at most to come from an object to the root: it and 64 containers.
pub const MOST_ON_PATH: usize = 65;
