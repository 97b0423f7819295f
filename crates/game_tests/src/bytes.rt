// Stored arenas as bytes.

// The record of a vertex.
pub(crate) fn vertex(owner: u8, priority: u16, left: u16, right: u16) -> [u8; 8] {
    let [p0, p1] = priority.to_le_bytes();
    let [l0, l1] = left.to_le_bytes();
    let [r0, r1] = right.to_le_bytes();
    [owner, 0, p0, p1, l0, l1, r0, r1]
}
