// The space that a call lends a rewrite.
ghost use Rattle.std.specs.Prelude.{◌≡◌, ◌≤◌, length};
ghost use Rattle.image.specs.Limits.{map_bytes, max_records, work_bytes};

// Room for a map of names, a work buffer, and a level for each record.
#[derive(Drop)]
pub struct Scratch<'a> {
    pub m: &'a mut [u8],
    pub work: &'a mut [u8],
    pub levels: &'a mut [u32],
    ghost m_long: { map_bytes ≤ length m.now },
    ghost work_long: { length work.now ≡ work_bytes },
    ghost levels_long: { length levels.now ≡ max_records },
}
