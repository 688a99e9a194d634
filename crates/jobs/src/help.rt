// The commands, as help lists them.

pub const HELP: &str = "
  make SYMMETRY              its span and its hem
  fold SYMMETRY : X Y        the home of a cell, and the kinds of the operations that carry the cell there
  reduce AX AY BX BY         the vectors (P, 0) and (B, D) of the lattice of two vectors, as P B D
  classes SYMMETRY : X Y W H how many classes meet the window with that corner and those sides, and a picture of them
  card SYMBOL P Q            the catalogue card of a fully inked repeat of the plane group with that symbol
  cells X0 Y0 X1 Y1          the cells of a line
  help                       this list
  # ...                      a remark, passed over as an empty line is
  A SYMMETRY is a base, then its layers, the lowest first. A base is
  T NUMBER P Q               a plane group by its number, with the periods P and Q
  O AX AY BX BY              the oblique lattice of the vectors (AX, AY) and (BX, BY)
  and a layer is
  S U V                      a shift by (U, V)
  R A B C D                  a recast by the matrix with the rows (A B) and (C D)
  C                          a counterchange
  A drawing job says what its sheets are drawn with:
  symmetry SYMMETRY          the symmetry
  canvas sparse RECORDS      a canvas that holds so many cells
  canvas bytes BYTES WIDTH CORNERX CORNERY
                             a canvas of so many cells, in rows of a width from a corner on
  palette HEX                red, green and blue of the sixteen inks, as 96 hexadecimal digits
  opens a sheet, and makes calls on it:
  open                       a new sheet, all bare
  dot INK X Y                inks a cell and its images
  line INK X0 Y0 X1 Y1       inks the cells of a line and their images
  show X Y                   the ink that a cell shows
  window X Y W H FILE        writes a PPM picture of the window with that corner and those sides
  window X Y W H palette=LENGTH output=LENGTH
                             prints its bytes, with so much of the palette and so much room
  close                      closes the sheet: it takes no more strokes
  quote                      the independent cells and the strokes of the closed sheet, and its card";
