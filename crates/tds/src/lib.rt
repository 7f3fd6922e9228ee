// The functions that C calls. Each answers one number and fills byte slices; include/tds.h describes them for C.
#![tactic(auto)]

ghost use Rattle.std.specs.Prelude.{◌≡◌, ◌/◌, ◌%◌};
ghost use Rattle.studio_rules.specs.Encodings.{record_bytes, part_bytes};
ghost use Rattle.studio_rules.specs.Calls.{check_call, list_call, in_bytes, mapping_in_bytes, tables_call, name_call, box_call, parts_call};
ghost use Rattle.studio_meshes_rules.specs.Calls.{mesh_bytes, meshes_call};
ghost use Rattle.studio_meshes_rules.specs.Boxes.{box_bytes, boxes_call};
ghost use Rattle.studio_list_table.specs.Listed.{in_table, in_row};
ghost use Rattle.shared_words.specs.Encodings.{number_bytes};
ghost use Rattle.studio_mesh_tables.specs.Rows.{two_rows, mapping_row};
ghost use Rattle.studio_write.specs.Write.{write_call};
ghost use Rattle.studio_figure_rules.specs.Described.{write_flat};
ghost use Rattle.studio_figure_rows.specs.Rows.{flat};
ghost use Rattle.c_version.specs.Version.{version};
ghost use Rattle.c_codes.specs.Codes.{records_or, sizes_or, numbers_or, count_or};
ghost use Rattle.c_answers.specs.Given.{counts_given, name_given, box_given};
ghost use Rattle.c4d_rules.specs.Calls.{object_bytes, two_rows as object_rows, c4d_check_call, c4d_list_call};
ghost use Rattle.slip_sums.specs.Fletcher.{sum_of};
ghost use Rattle.slip_sums.specs.Passes.{sums_call, match_of};
ghost use Rattle.slip_rules.specs.Calls.{byte_row, slip_read_call, given_bytes, slip_write_call};
ghost use Rattle.cob_rules.specs.Calls.{check_call as cob_check_call, list_call as cob_list_call, sizes_call as cob_sizes_call};
ghost use Rattle.cob_rules.specs.Calls.{tables_call as cob_tables_call, record_bytes as cob_records};
ghost use Rattle.cob_tables.specs.Rows.{rows as cob_rows};
ghost use Rattle.cob_meshes_rules.specs.Calls.{mesh_bytes as cob_mesh_bytes, meshes_call as cob_meshes_call};
ghost use Rattle.c_stick.specs.Codes.{one_or};
ghost use Rattle.stick_rules.specs.Records.{judge_call};
ghost use Rattle.stick_evidence.specs.Evidence.{file_call, more_call};
ghost use Rattle.studio_rescue_rules.specs.Call.{cut_bytes, rescue_call};
ghost use Rattle.studio_rescue.specs.Parts.{rescue_rows};
ghost use Rattle.c_rescue.specs.Codes.{cuts_or};
ghost use Rattle.c_sums.specs.Numbers.{sums_or, zero_or, sum_in, with_part_number, join_numbers};

use c_codes::checked_code;
use studio_figure_rows::FlatRows;
use studio_rules::Record;

// The version of the library.
#[unsafe(no_mangle)]
pub extern "C" fn tds_version() -> u64
    ensures { result ≡ version }
{
    c_version::version()
}

// The count of records, or a refusal.
#[unsafe(no_mangle)]
pub extern "C" fn tds_check(file: &[u8]) -> u64
    ensures { result ≡ records_or (check_call file.now) }
{
    checked_code(studio_check::check(file))
}

// The count of records that now stand in the front of the slice, 28 bytes each, or a refusal.
#[unsafe(no_mangle)]
pub extern "C" fn tds_list(file: &[u8], records: &mut [u8]) -> u64
    ensures answer { result ≡ records_or (list_call record_bytes file.now records.old).answer }
    ensures records { records.new ≡ (list_call record_bytes file.now records.old).rows }
{
    checked_code(studio_list::list_bytes(file, records))
}

// The count of records that now stand in the front of the table, and their numbers in the front of the row, or a refusal.
#[unsafe(no_mangle)]
pub extern "C" fn tds_records(file: &[u8], row: &mut [u32], table: &mut [Record]) -> u64
    ensures answer { result ≡ records_or (in_table file.now row.old table.old).answer }
    ensures table { table.new ≡ (in_table file.now row.old table.old).rows }
    ensures row { row.new ≡ (in_row file.now row.old table.old).rows }
{
    checked_code(studio_list_table::list_records(file, row, table))
}

// The vertices plus 65,536 times the faces of a mesh, whose tables now stand in the front of the slices, or a refusal.
#[unsafe(no_mangle)]
pub extern "C" fn tds_tables(file: &[u8], mesh: u32, vertices: &mut [u8], corners: &mut [u8]) -> u64
    ensures answer { result ≡ sizes_or (tables_call in_bytes file.now mesh (two_rows vertices.old corners.old)).answer }
    ensures rows { two_rows vertices.new corners.new ≡
        (tables_call in_bytes file.now mesh (two_rows vertices.old corners.old)).rows }
{
    c_codes::tabled_code(studio_mesh_tables::tables_bytes(file, mesh, vertices, corners))
}

// How many numbers the mapping of a mesh has, which now stands in the front of the slice, or a refusal.
#[unsafe(no_mangle)]
pub extern "C" fn tds_mapping(file: &[u8], mesh: u32, mapping: &mut [u8]) -> u64
    ensures answer { result ≡ numbers_or (tables_call mapping_in_bytes file.now mesh (mapping_row mapping.old)).answer }
    ensures row { mapping_row mapping.new ≡ (tables_call mapping_in_bytes file.now mesh (mapping_row mapping.old)).rows }
{
    c_codes::mapped_code(studio_mesh_tables::mapping_bytes(file, mesh, mapping))
}

// The three byte counts, or a refusal.
#[unsafe(no_mangle)]
pub extern "C" fn tds_counts(file: &[u8], out: &mut [u8]) -> u64
    ensures answer { result ≡ (counts_given out.old (check_call file.now)).answer }
    ensures out { out.new ≡ (counts_given out.old (check_call file.now)).rows }
{
    c_answers::give_counts(studio_check::check(file), out)
}

// The offset and the length of a mesh's name, or a refusal.
#[unsafe(no_mangle)]
pub extern "C" fn tds_name(file: &[u8], mesh: u32, out: &mut [u8]) -> u64
    ensures answer { result ≡ (name_given out.old (name_call file.now mesh)).answer }
    ensures out { out.new ≡ (name_given out.old (name_call file.now mesh)).rows }
{
    c_answers::give_name(studio_mesh_calls::name(file, mesh), out)
}

// The low corner, the high corner and the centre of a mesh's box, or a refusal.
#[unsafe(no_mangle)]
pub extern "C" fn tds_box(file: &[u8], mesh: u32, out: &mut [u8]) -> u64
    ensures answer { result ≡ (box_given out.old (box_call file.now mesh)).answer }
    ensures out { out.new ≡ (box_given out.old (box_call file.now mesh)).rows }
{
    c_answers::give_box(studio_mesh_calls::bounding_box(file, mesh), out)
}

// The count of parts whose fathers and depths now stand in the front of the slice, 8 bytes each, or a refusal.
#[unsafe(no_mangle)]
pub extern "C" fn tds_parts(file: &[u8], parts: &mut [u8]) -> u64
    ensures answer { result ≡ count_or (parts_call part_bytes file.now parts.old).answer }
    ensures parts { parts.new ≡ (parts_call part_bytes file.now parts.old).rows }
{
    c_codes::count_code(studio_parts::parts_bytes(file, parts))
}

// The count of meshes, whose eight numbers each now stand in the front of the slice, or a refusal.
#[unsafe(no_mangle)]
pub extern "C" fn tds_meshes(file: &[u8], meshes: &mut [u8]) -> u64
    ensures answer { result ≡ count_or (meshes_call mesh_bytes file.now meshes.old).answer }
    ensures meshes { meshes.new ≡ (meshes_call mesh_bytes file.now meshes.old).rows }
{
    c_codes::count_code(studio_meshes::meshes_bytes(file, meshes))
}

// The count of meshes, whose boxes and centres, nine floats each, now stand in the front of the slice, or a refusal.
#[unsafe(no_mangle)]
pub extern "C" fn tds_boxes(file: &[u8], boxes: &mut [u8]) -> u64
    ensures answer { result ≡ count_or (boxes_call box_bytes file.now boxes.old).answer }
    ensures boxes { boxes.new ≡ (boxes_call box_bytes file.now boxes.old).rows }
{
    c_codes::count_code(studio_meshes::boxes_bytes(file, boxes))
}

// The count of cuts that now stand in the front of the first slice, 12 bytes each, the mended file in the front of the second, or a
// refusal.
#[unsafe(no_mangle)]
pub extern "C" fn tds_rescue(file: &[u8], cuts: &mut [u8], out: &mut [u8]) -> u64
    ensures answer { result ≡ cuts_or (rescue_call cut_bytes file.now (rescue_rows cuts.old out.old)).answer }
    ensures rows { rescue_rows cuts.new out.new ≡
        (rescue_call cut_bytes file.now (rescue_rows cuts.old out.old)).rows }
{
    c_rescue::mended_code(studio_rescue::rescue(file, cuts, out))
}

// The size of the figure that now stands in the front of out, or a refusal.
#[unsafe(no_mangle)]
pub extern "C" fn tds_write(name: &[u8], vertices: &[f32], corners: &[u16], out: &mut [u8]) -> u64
    ensures answer { result ≡ count_or (write_call name.now vertices.now corners.now out.old).answer }
    ensures out { out.new ≡ (write_call name.now vertices.now corners.now out.old).rows }
{
    c_codes::count_code(studio_write::write(name, vertices, corners, out))
}

// The size of the figure with many objects and materials that now stands in the front of out, or a refusal.
#[unsafe(no_mangle)]
pub extern "C" fn tds_write_figure(
    names: &[u8],
    objects: &[u32],
    vertices: &[f32],
    corners: &[u16],
    smoothing: &[u32],
    groups: &[u32],
    faces: &[u16],
    materials: &[u32],
    colours: &[u8],
    out: &mut [u8],
) -> u64
    ensures answer { result ≡ count_or (write_flat (flat names.now objects.now vertices.now corners.now
        smoothing.now groups.now faces.now materials.now colours.now) out.old).answer }
    ensures out { out.new ≡ (write_flat (flat names.now objects.now vertices.now corners.now
        smoothing.now groups.now faces.now materials.now colours.now) out.old).rows }
{
    let rows = FlatRows::new(
        names, objects, vertices, corners, smoothing, groups, faces, materials, colours,
    );
    c_codes::count_code(studio_figure::write_figure(&rows, out))
}

// ---- the slip of a stick: the checksum of a file

// The sums of a file, for making an entry, or a refusal.
#[unsafe(no_mangle)]
pub extern "C" fn tds_sums(file: &[u8]) -> u64
    ensures { result ≡ sums_or (sums_call file.now) }
{
    c_sums::file_sums(file)
}

// One file against one entry: 0, or a refusal.
#[unsafe(no_mangle)]
pub extern "C" fn tds_matches(file: &[u8], len: u32, sums: u32) -> u64
    ensures { result ≡ zero_or (match_of (sum_of file.now) len (sums % 256) (sums / 256)) }
{
    c_sums::file_matches(file, len, sums)
}

// The number of what stood before, followed by these bytes.
#[unsafe(no_mangle)]
pub extern "C" fn tds_sum_add(before: u64, part: &[u8]) -> u64
    ensures { result ≡ with_part_number before part.now }
{
    c_sums::sum_add(before, part)
}

// The number of two parts joined, from theirs.
#[unsafe(no_mangle)]
pub extern "C" fn tds_sum_join(first: u64, second: u64) -> u64
    ensures { result ≡ join_numbers first second }
{
    c_sums::sum_join(first, second)
}

// All the parts together against one entry: 0, or a refusal.
#[unsafe(no_mangle)]
pub extern "C" fn tds_sum_matches(sum: u64, len: u32, sums: u32) -> u64
    ensures { result ≡ zero_or (match_of (sum_in sum) len (sums % 256) (sums / 256)) }
{
    c_sums::sum_matches(sum, len, sums)
}

// ---- the slip itself

// The count of entries that now stand in the front of the slice, 16 bytes each, or a refusal.
#[unsafe(no_mangle)]
pub extern "C" fn tds_slip_read(slip: &[u8], entries: &mut [u8]) -> u64
    ensures answer { result ≡ count_or (slip_read_call byte_row slip.now entries.old).answer }
    ensures entries { entries.new ≡ (slip_read_call byte_row slip.now entries.old).rows }
{
    c_codes::count_code(slip_read::read(slip, entries))
}

// The size of the slip that now stands in the front of out, or a refusal.
#[unsafe(no_mangle)]
pub extern "C" fn tds_slip_write(names: &[u8], entries: &[u8], out: &mut [u8]) -> u64
    ensures answer { result ≡ count_or (slip_write_call names.now (given_bytes entries.now) out.old).answer }
    ensures out { out.new ≡ (slip_write_call names.now (given_bytes entries.now) out.old).rows }
{
    c_codes::count_code(slip_write::write(names, entries, out))
}

// ---- Cinema 4D figures

// The count of objects, or a refusal.
#[unsafe(no_mangle)]
pub extern "C" fn tds_c4d_check(file: &[u8]) -> u64
    ensures { result ≡ count_or (c4d_check_call file.now) }
{
    c_codes::count_code(c4d_check::check(file))
}

// The count of objects that now stand in the front of the first slice, 12 bytes each, their materials in the front of the
// second, or a refusal.
#[unsafe(no_mangle)]
pub extern "C" fn tds_c4d_list(file: &[u8], objects: &mut [u8], materials: &mut [u8]) -> u64
    ensures answer { result ≡ count_or (c4d_list_call object_bytes (number_bytes 4) file.now objects.old
        materials.old).answer }
    ensures rows { object_rows objects.new materials.new ≡
        (c4d_list_call object_bytes (number_bytes 4) file.now objects.old materials.old).rows }
{
    c_codes::count_code(c4d_list::list(file, objects, materials))
}

// ---- Caligari figures

// The count of records, or a refusal.
#[unsafe(no_mangle)]
pub extern "C" fn tds_cob_check(file: &[u8]) -> u64
    ensures { result ≡ count_or (cob_check_call file.now) }
{
    c_codes::count_code(cob_check::check(file))
}

// The count of records that now stand in the front of the slice, 24 bytes each, or a refusal.
#[unsafe(no_mangle)]
pub extern "C" fn tds_cob_list(file: &[u8], records: &mut [u8]) -> u64
    ensures answer { result ≡ count_or (cob_list_call cob_records file.now records.old).answer }
    ensures records { records.new ≡ (cob_list_call cob_records file.now records.old).rows }
{
    c_codes::count_code(cob_list::list(file, records))
}

// 2, where the counts of vertices and of faces now stand in the front of the slice, four bytes each; or a refusal.
#[unsafe(no_mangle)]
pub extern "C" fn tds_cob_sizes(file: &[u8], mesh: u32, sizes: &mut [u8]) -> u64
    ensures answer { result ≡ count_or (cob_sizes_call (number_bytes 4) file.now mesh sizes.old).answer }
    ensures sizes { sizes.new ≡ (cob_sizes_call (number_bytes 4) file.now mesh sizes.old).rows }
{
    c_codes::count_code(cob_tables::sizes(file, mesh, sizes))
}

// The count of vertices that now stand in the front of the first slice, and corners in the second, or a refusal.
#[unsafe(no_mangle)]
pub extern "C" fn tds_cob_tables(
    file: &[u8],
    mesh: u32,
    vertices: &mut [u8],
    corners: &mut [u8],
) -> u64
    ensures answer { result ≡ count_or (cob_tables_call (number_bytes 4)
        file.now mesh (cob_rows vertices.old corners.old)).answer }
    ensures rows { cob_rows vertices.new corners.new ≡
        (cob_tables_call (number_bytes 4) file.now mesh (cob_rows vertices.old corners.old)).rows }
{
    c_codes::count_code(cob_tables::tables(file, mesh, vertices, corners))
}

// The count of meshes, whose eight numbers each now stand in the front of the slice, or a refusal.
#[unsafe(no_mangle)]
pub extern "C" fn tds_cob_meshes(file: &[u8], meshes: &mut [u8]) -> u64
    ensures answer { result ≡ count_or (cob_meshes_call cob_mesh_bytes file.now meshes.old).answer }
    ensures meshes { meshes.new ≡ (cob_meshes_call cob_mesh_bytes file.now meshes.old).rows }
{
    c_codes::count_code(cob_meshes::meshes(file, meshes))
}

// ---- a stick

// 1 where nothing is wrong with a stick, or the first problem.
#[unsafe(no_mangle)]
pub extern "C" fn tds_stick_judge(slip: &[u8], names: &[u8], items: &[u8]) -> u64
    ensures { result ≡ one_or (judge_call slip.now names.now items.now) }
{
    c_stick::judged_code(stick_judge::judge(slip, names, items))
}

// Fills the row of a file behind the place of its name; 0, or a refusal.
#[unsafe(no_mangle)]
pub extern "C" fn tds_stick_file(path: &[u8], size: u64, bytes: &[u8], item: &mut [u8]) -> u64
    ensures answer { result ≡ (file_call path.now size bytes.now item.old).answer }
    ensures row { item.new ≡ (file_call path.now size bytes.now item.old).rows }
{
    stick_evidence::file(path, size, bytes, item)
}

// Goes on in the row of a file with a further part of its bytes; 0, or a refusal.
#[unsafe(no_mangle)]
pub extern "C" fn tds_stick_more(part: &[u8], item: &mut [u8]) -> u64
    ensures answer { result ≡ (more_call part.now item.old).answer }
    ensures row { item.new ≡ (more_call part.now item.old).rows }
{
    stick_evidence::more(part, item)
}
