// Flat rows: what their descriptions add up to, and whether they fit it.
#![tactic(auto)]

ghost use Rattle.std.specs.Prelude.{◌≡◌, ◌+◌, ◌*◌, ◌/◌, ◌<◌, ◌≤◌, eqb, length};
ghost use Rattle.studio_figure_rows.specs.Rows.{entry, sum_to, names_length, Capped};
ghost use Rattle.studio_write.specs.ReadsBack.{Floats32};

use shared_words::Refusal;

// Number `column` of thing i, where each has `width` numbers: the rows are flat as C gives them to tds_write_figure.
pub fn number(row: &[u32], width: usize, column: usize, i: usize) -> usize
    requires { (column < width) × (width * i + width ≤ length row.now) }
    ensures { (result ≡ entry width column row.now i) × (result < 4294967296) }
{
    row[width * i + column] as usize
}

// That number of the things from `from` to `to`, added up. It stops once the sum is over the cap, and so never wraps.
pub fn sum(row: &[u32], width: usize, column: usize, from: usize, to: usize, cap: usize) -> usize
    requires { (column < width) × (from ≤ to) × (width * to ≤ length row.now) × (cap < 9223372036854775808) }
    ensures { Capped (sum_to width column row.now from) (sum_to width column row.now to) cap result }
{
    let mut sum = 0usize;
    for i in from..to {
        if cap < sum {
            return sum;
        }
        sum += number(row, width, column, i);
    }
    sum
}

// Whether that of the first n things adds up to a length.
fn adds_up(row: &[u32], width: usize, column: usize, n: usize, len: usize) -> bool
    requires { (column < width) × (width * n ≤ length row.now) × (len < 9223372036854775808) }
    ensures { result ≡ eqb len (sum_to width column row.now n) }
{
    sum(row, width, column, 0, n, len) == len
}

// Whether the names add up: of the objects, of the materials, of the groups.
fn names_add_up(len: usize, objects: &[u32], materials: &[u32], groups: &[u32]) -> bool
    requires { len < 9223372036854775808 }
    ensures { result ≡ eqb len (names_length objects.now materials.now groups.now) }
{
    let first = sum(objects, 5, 0, 0, objects.len() / 5, len);
    if len < first {
        return false;
    }
    let rest = len - first;
    let second = sum(materials, 1, 0, 0, materials.len(), rest);
    if rest < second {
        return false;
    }
    adds_up(groups, 2, 0, groups.len() / 2, rest - second)
}

// Whether there are as many groups as the objects have.
fn groups_add_up(objects: &[u32], groups: &[u32]) -> bool
    ensures { result ≡ eqb (length groups.now) (2 * sum_to 5 4 objects.now (length objects.now / 5)) }
{
    groups.len() % 2 == 0 && adds_up(objects, 5, 4, objects.len() / 5, groups.len() / 2)
}

// Whether there are nine bytes for each of n materials.
fn colours_add_up(colours: usize, n: usize) -> bool
    ensures { result ≡ eqb colours (9 * n) }
{
    colours % 9 == 0 && colours / 9 == n
}

// A figure as flat rows, where those of several objects, groups or materials stand one after another.
#[derive(Clone, Copy)]
pub struct FlatRows<'a> {
    // Of the objects, of the materials, of the groups.
    pub names: &'a [u8],
    // Five numbers an object: bytes of its name, floats, corners, smoothing words, groups.
    pub objects: &'a [u32],
    pub vertices: &'a [f32],
    pub corners: &'a [u16],
    pub smoothing: &'a [u32],
    // Two numbers a group, in the order of the objects: bytes of its name, face numbers.
    pub groups: &'a [u32],
    pub faces: &'a [u16],
    // One number a material: bytes of its name.
    pub materials: &'a [u32],
    // Nine bytes a material: ambient, diffuse, specular.
    pub colours: &'a [u8],
    // What the types say of any rows.
    ghost floats: { Floats32 vertices.now },
    ghost lengths: { (length names.now < 9223372036854775808) × (length vertices.now < 9223372036854775808) × (length corners.now < 9223372036854775808) ×
        (length smoothing.now < 9223372036854775808) × (length faces.now < 9223372036854775808) },
}

impl<'a> FlatRows<'a> {
    ghost use Rattle.shared_words.specs.Conditions.{answered};
    ghost use Rattle.studio_figure_rows.specs.Given.{given};
    ghost use Rattle.studio_figure_rules.specs.Described.{fit_conditions};
    ghost use Rattle.studio_figure_rows.specs.Rows.{flat};

    // Any nine rows. What the types say of them is shown here, so that a caller has nothing to show.
    pub fn new(
        names: &'a [u8],
        objects: &'a [u32],
        vertices: &'a [f32],
        corners: &'a [u16],
        smoothing: &'a [u32],
        groups: &'a [u32],
        faces: &'a [u16],
        materials: &'a [u32],
        colours: &'a [u8],
    ) -> FlatRows<'a>
        ensures { given result ≡ flat names.now objects.now vertices.now corners.now smoothing.now groups.now faces.now materials.now colours.now }
    {
        FlatRows {
            names,
            objects,
            vertices,
            corners,
            smoothing,
            groups,
            faces,
            materials,
            colours,
        }
    }

    // The first row, in the order of the description, whose length is not what it says.
    pub fn fits(&self) -> Result<(), Refusal>
        ensures { result ≡ answered (fit_conditions (given self.now)) }
    {
        let objects = self.objects;
        let groups = self.groups;
        if objects.len() % 5 != 0 {
            return Err(Refusal::Count(objects.len()));
        }
        if !groups_add_up(objects, groups) {
            return Err(Refusal::Count(groups.len()));
        }
        if !names_add_up(self.names.len(), objects, self.materials, groups) {
            return Err(Refusal::Count(self.names.len()));
        }
        let n = objects.len() / 5;
        if !adds_up(objects, 5, 1, n, self.vertices.len()) {
            return Err(Refusal::Count(self.vertices.len()));
        }
        if !adds_up(objects, 5, 2, n, self.corners.len()) {
            return Err(Refusal::Count(self.corners.len()));
        }
        if !adds_up(objects, 5, 3, n, self.smoothing.len()) {
            return Err(Refusal::Count(self.smoothing.len()));
        }
        if !adds_up(groups, 2, 1, groups.len() / 2, self.faces.len()) {
            return Err(Refusal::Count(self.faces.len()));
        }
        if !colours_add_up(self.colours.len(), self.materials.len()) {
            return Err(Refusal::Count(self.colours.len()));
        }
        Ok(())
    }
}
