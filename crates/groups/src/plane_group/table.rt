// The table of positions.
ghost use Rattle.std.specs.Prelude.{◌≡◌, map};
ghost use Rattle.groups.specs.Positions.{position_of};
ghost use Rattle.groups.specs.Table.{rows};

use super::PlaneGroup;

// The positions of the seventeen plane groups, a row each: a b c d s t.
#[rattlefmt::skip]
const POSITIONS: [i8; 504] = [
     1,  0,  0,  1,  0,  0, // 1 p1: x,y
     1,  0,  0,  1,  0,  0, // 2 p2: x,y
    -1,  0,  0, -1,  0,  0, // 2 p2: -x,-y
     1,  0,  0,  1,  0,  0, // 3 pm: x,y
    -1,  0,  0,  1,  0,  0, // 3 pm: -x,y
     1,  0,  0,  1,  0,  0, // 4 pg: x,y
    -1,  0,  0,  1,  0,  1, // 4 pg: -x,y+1/2
     1,  0,  0,  1,  0,  0, // 5 cm: x,y
    -1,  0,  0,  1,  0,  0, // 5 cm: -x,y
     1,  0,  0,  1,  1,  1, // 5 cm: x+1/2,y+1/2
    -1,  0,  0,  1,  1,  1, // 5 cm: -x+1/2,y+1/2
     1,  0,  0,  1,  0,  0, // 6 p2mm: x,y
    -1,  0,  0, -1,  0,  0, // 6 p2mm: -x,-y
    -1,  0,  0,  1,  0,  0, // 6 p2mm: -x,y
     1,  0,  0, -1,  0,  0, // 6 p2mm: x,-y
     1,  0,  0,  1,  0,  0, // 7 p2mg: x,y
    -1,  0,  0, -1,  0,  0, // 7 p2mg: -x,-y
    -1,  0,  0,  1,  1,  0, // 7 p2mg: -x+1/2,y
     1,  0,  0, -1,  1,  0, // 7 p2mg: x+1/2,-y
     1,  0,  0,  1,  0,  0, // 8 p2gg: x,y
    -1,  0,  0, -1,  0,  0, // 8 p2gg: -x,-y
    -1,  0,  0,  1,  1,  1, // 8 p2gg: -x+1/2,y+1/2
     1,  0,  0, -1,  1,  1, // 8 p2gg: x+1/2,-y+1/2
     1,  0,  0,  1,  0,  0, // 9 c2mm: x,y
    -1,  0,  0, -1,  0,  0, // 9 c2mm: -x,-y
    -1,  0,  0,  1,  0,  0, // 9 c2mm: -x,y
     1,  0,  0, -1,  0,  0, // 9 c2mm: x,-y
     1,  0,  0,  1,  1,  1, // 9 c2mm: x+1/2,y+1/2
    -1,  0,  0, -1,  1,  1, // 9 c2mm: -x+1/2,-y+1/2
    -1,  0,  0,  1,  1,  1, // 9 c2mm: -x+1/2,y+1/2
     1,  0,  0, -1,  1,  1, // 9 c2mm: x+1/2,-y+1/2
     1,  0,  0,  1,  0,  0, // 10 p4: x,y
    -1,  0,  0, -1,  0,  0, // 10 p4: -x,-y
     0, -1,  1,  0,  0,  0, // 10 p4: -y,x
     0,  1, -1,  0,  0,  0, // 10 p4: y,-x
     1,  0,  0,  1,  0,  0, // 11 p4mm: x,y
    -1,  0,  0, -1,  0,  0, // 11 p4mm: -x,-y
     0, -1,  1,  0,  0,  0, // 11 p4mm: -y,x
     0,  1, -1,  0,  0,  0, // 11 p4mm: y,-x
    -1,  0,  0,  1,  0,  0, // 11 p4mm: -x,y
     1,  0,  0, -1,  0,  0, // 11 p4mm: x,-y
     0,  1,  1,  0,  0,  0, // 11 p4mm: y,x
     0, -1, -1,  0,  0,  0, // 11 p4mm: -y,-x
     1,  0,  0,  1,  0,  0, // 12 p4gm: x,y
    -1,  0,  0, -1,  0,  0, // 12 p4gm: -x,-y
     0, -1,  1,  0,  0,  0, // 12 p4gm: -y,x
     0,  1, -1,  0,  0,  0, // 12 p4gm: y,-x
    -1,  0,  0,  1,  1,  1, // 12 p4gm: -x+1/2,y+1/2
     1,  0,  0, -1,  1,  1, // 12 p4gm: x+1/2,-y+1/2
     0,  1,  1,  0,  1,  1, // 12 p4gm: y+1/2,x+1/2
     0, -1, -1,  0,  1,  1, // 12 p4gm: -y+1/2,-x+1/2
     1,  0,  0,  1,  0,  0, // 13 p3: x,y
     0, -1,  1, -1,  0,  0, // 13 p3: -y,x-y
    -1,  1, -1,  0,  0,  0, // 13 p3: -x+y,-x
     1,  0,  0,  1,  0,  0, // 14 p3m1: x,y
     0, -1,  1, -1,  0,  0, // 14 p3m1: -y,x-y
    -1,  1, -1,  0,  0,  0, // 14 p3m1: -x+y,-x
     0, -1, -1,  0,  0,  0, // 14 p3m1: -y,-x
    -1,  1,  0,  1,  0,  0, // 14 p3m1: -x+y,y
     1,  0,  1, -1,  0,  0, // 14 p3m1: x,x-y
     1,  0,  0,  1,  0,  0, // 15 p31m: x,y
     0, -1,  1, -1,  0,  0, // 15 p31m: -y,x-y
    -1,  1, -1,  0,  0,  0, // 15 p31m: -x+y,-x
     0,  1,  1,  0,  0,  0, // 15 p31m: y,x
     1, -1,  0, -1,  0,  0, // 15 p31m: x-y,-y
    -1,  0, -1,  1,  0,  0, // 15 p31m: -x,-x+y
     1,  0,  0,  1,  0,  0, // 16 p6: x,y
     0, -1,  1, -1,  0,  0, // 16 p6: -y,x-y
    -1,  1, -1,  0,  0,  0, // 16 p6: -x+y,-x
    -1,  0,  0, -1,  0,  0, // 16 p6: -x,-y
     0,  1, -1,  1,  0,  0, // 16 p6: y,-x+y
     1, -1,  1,  0,  0,  0, // 16 p6: x-y,x
     1,  0,  0,  1,  0,  0, // 17 p6mm: x,y
     0, -1,  1, -1,  0,  0, // 17 p6mm: -y,x-y
    -1,  1, -1,  0,  0,  0, // 17 p6mm: -x+y,-x
    -1,  0,  0, -1,  0,  0, // 17 p6mm: -x,-y
     0,  1, -1,  1,  0,  0, // 17 p6mm: y,-x+y
     1, -1,  1,  0,  0,  0, // 17 p6mm: x-y,x
     0, -1, -1,  0,  0,  0, // 17 p6mm: -y,-x
    -1,  1,  0,  1,  0,  0, // 17 p6mm: -x+y,y
     1,  0,  1, -1,  0,  0, // 17 p6mm: x,x-y
     0,  1,  1,  0,  0,  0, // 17 p6mm: y,x
     1, -1,  0, -1,  0,  0, // 17 p6mm: x-y,-y
    -1,  0, -1,  1,  0,  0, // 17 p6mm: -x,-x+y
];

// The row where each group begins, and last the number of rows.
const STARTS: [usize; 18] = [
    0, 1, 3, 5, 7, 11, 15, 19, 23, 31, 35, 43, 51, 54, 60, 66, 72, 84,
];

impl PlaneGroup {
    // The six numbers of each position of the group.
    pub(crate) fn rows(self) -> &'static [[i8; 6]]
        ensures { map position_of result.now ≡ rows self.number }
    {
        let (table, _) = POSITIONS.as_chunks::<6>();
        let number = self.number as usize;
        &table[STARTS[number - 1]..STARTS[number]]
    }
}
