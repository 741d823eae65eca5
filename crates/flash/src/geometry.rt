// The numbers that both parts share.

/// Pages in a block.
pub const PAGES: u8 = 64;
/// Bytes in a page, the spare ones included: columns 0 to 2111.
pub const COLUMNS: u16 = 2112;
/// The column of a page's factory mark; pages 0 and 1 of a block carry one.
pub const MARK_COLUMN: u16 = 2048;
/// Blocks of the larger part.
pub const MOST_BLOCKS: usize = 2048;
