// The commands, as help lists them.

pub const HELP: &str = "
  make SYMMETRY              its span and its hem
  fold SYMMETRY : X Y        the home of a cell, and the kinds of the operations that carry the cell there
  reduce AX AY BX BY         the vectors (P, 0) and (B, D) of the lattice of two vectors, as P B D
  classes SYMMETRY : X Y W H how many classes meet the window with that corner and those sides, and a picture of them
  card SYMBOL P Q            the catalogue card of a fully inked repeat of the plane group with that symbol
  help                       this list
  # ...                      a remark, passed over as an empty line is
  A SYMMETRY is a base, then its layers, the lowest first. A base is
  T NUMBER P Q               a plane group by its number, with the periods P and Q
  O AX AY BX BY              the oblique lattice of the vectors (AX, AY) and (BX, BY)
  and a layer is
  S U V                      a shift by (U, V)
  R A B C D                  a recast by the matrix with the rows (A B) and (C D)
  C                          a counterchange";
