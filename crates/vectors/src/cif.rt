// CIF files in place of a group text.
use crate::case::Case;
use crate::inputs::{C2M_REPORT, P21C_REPORT};

/// CIF files in place of a group text, and such files that are refused.
pub(crate) fn all() -> &'static [Case] {
    &CASES
}

static CASES: [Case; 6] = [
    Case {
        name: "P2_1/c along b, from a loop with numbers",
        words: &[
            "layers", "0", "1", "0", "--frame", "1,0,0", "0,0,-1", "0,1,0", "--cif",
        ],
        input: b"data_x\n\
            _cell_length_a 5.1\n\
            loop_\n\
            _space_group_symop_id\n\
            _space_group_symop_operation_xyz\n\
            1 'x, y, z'\n\
            2 '-x, y+1/2, -z+1/2'\n\
            3 '-x, -y, -z'\n\
            4 'x, -y+1/2, z+1/2'\n\
            loop_\n\
            _atom_site_label\n\
            Zn1\n",
        output: P21C_REPORT,
        complaints: b"",
        status: 0,
    },
    Case {
        name: "C2/m along b, from a loop of bare operations",
        words: &[
            "layers",
            "0",
            "1",
            "0",
            "--frame",
            "1,0,0",
            "0,0,-1",
            "-1/2,1/2,0",
            "--cif",
        ],
        input: b"loop_\n\
            _symmetry_equiv_pos_as_xyz\n\
            x,y,z\n\
            -x,y,-z\n\
            -x,-y,-z\n\
            x,-y,z\n\
            x+1/2,y+1/2,z\n\
            -x+1/2,y+1/2,-z\n\
            -x+1/2,-y+1/2,-z\n\
            x+1/2,-y+1/2,z\n",
        output: C2M_REPORT,
        complaints: b"",
        status: 0,
    },
    Case {
        name: "a file without operations",
        words: &["layers", "0", "0", "1", "--cif"],
        input: b"data_x\n",
        output: b"",
        complaints: b"refused: no symmetry operations\n",
        status: 1,
    },
    Case {
        name: "a quoted operation without its end",
        words: &["layers", "0", "0", "1", "--cif"],
        input: b"loop_\n_symmetry_equiv_pos_as_xyz\nx,y,z\n'-x,-y,-z\n",
        output: b"",
        complaints: b"refused: cif line 4 column 1 quote\n",
        status: 1,
    },
    Case {
        name: "a decimal fraction in a single operation",
        words: &["layers", "0", "0", "1", "--cif"],
        input: b"_symmetry_equiv_pos_as_xyz x+0.5,y,z\n",
        output: b"",
        complaints: b"refused: cif line 1 column 31 symop unknown-sign\n",
        status: 1,
    },
    Case {
        name: "a last row that is short",
        words: &["layers", "0", "0", "1", "--cif"],
        input: b"loop_\n_a\n_symmetry_equiv_pos_as_xyz\n1 x,y,z 2\n",
        output: b"",
        complaints: b"refused: cif line 1 column 1 ragged\n",
        status: 1,
    },
];
