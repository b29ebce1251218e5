// Written by tests/written/wide.py from simplex, in f64.
// The two- and three-vertex solvers. The regions are tried in the order of model/specs/Simplex.antt, whose drawing names them.
ghost use Rattle.std.specs.Prelude.{◌≡◌};
ghost use Rattle.std.specs.Float.{binary64};
ghost use Rattle.model64.specs.Simplex as Simplex;

use ground64::{add, dot, neg, perp_dot, sub};
use model64::{SimplexVertex, Solved, Vector};

// Across the edge from u to w, toward the origin: cross(cross(u + w, e), e), with e for the edge.
fn off_edge(u: Vector, w: Vector) -> Vector
    ensures { result ≡ Simplex.off_edge binary64 u w }
{
    let e = sub(w, u);
    let s = perp_dot(add(u, w), e);
    Vector {
        x: -s * e.y,
        y: s * e.x,
    }
}

// What is kept of the first two vertices.
pub fn solve_simplex2(simplex: [SimplexVertex; 3]) -> Solved
    ensures { result ≡ Simplex.solve_simplex2 binary64 simplex }
{
    let mut simplex = simplex;
    let v1 = simplex[0];
    let v2 = simplex[1];
    let w1 = v1.w;
    let w2 = v2.w;
    let e12 = sub(w2, w1);

    // w1 region
    let d12_2 = -dot(w1, e12);
    if d12_2 <= 0.0 {
        simplex[0].a = 1.0;
        let direction = neg(w1);
        return Solved {
            simplex,
            count: 1,
            direction,
        };
    }

    // w2 region
    let d12_1 = dot(w2, e12);
    if d12_1 <= 0.0 {
        simplex[1].a = 1.0;
        // a vertex that goes to another slot takes its weight along
        simplex[0] = simplex[1];
        let direction = neg(w2);
        return Solved {
            simplex,
            count: 1,
            direction,
        };
    }

    // e12
    let inv_d12 = 1.0 / (d12_1 + d12_2);
    simplex[0].a = d12_1 * inv_d12;
    simplex[1].a = d12_2 * inv_d12;
    let direction = off_edge(w1, w2);
    Solved {
        simplex,
        count: 2,
        direction,
    }
}

// What is kept of the three vertices.
pub fn solve_simplex3(simplex: [SimplexVertex; 3]) -> Solved
    ensures { result ≡ Simplex.solve_simplex3 binary64 simplex }
{
    let mut simplex = simplex;
    let v1 = simplex[0];
    let v2 = simplex[1];
    let v3 = simplex[2];
    let w1 = v1.w;
    let w2 = v2.w;
    let w3 = v3.w;

    // Edge12: a3 = 0
    let e12 = sub(w2, w1);
    let d12_1 = dot(w2, e12);
    let d12_2 = -dot(w1, e12);

    // Edge13: a2 = 0
    let e13 = sub(w3, w1);
    let d13_1 = dot(w3, e13);
    let d13_2 = -dot(w1, e13);

    // Edge23: a1 = 0
    let e23 = sub(w3, w2);
    let d23_1 = dot(w3, e23);
    let d23_2 = -dot(w2, e23);

    // Triangle123
    let n123 = perp_dot(e12, e13);
    let d123_1 = n123 * perp_dot(w2, w3);
    let d123_2 = n123 * perp_dot(w3, w1);
    let d123_3 = n123 * perp_dot(w1, w2);

    // w1 region
    if (d12_2 <= 0.0) & (d13_2 <= 0.0) {
        simplex[0].a = 1.0;
        let direction = neg(w1);
        return Solved {
            simplex,
            count: 1,
            direction,
        };
    }

    // e12
    if (d12_1 > 0.0) & (d12_2 > 0.0) & (d123_3 <= 0.0) {
        let inv_d12 = 1.0 / (d12_1 + d12_2);
        simplex[0].a = d12_1 * inv_d12;
        simplex[1].a = d12_2 * inv_d12;
        let direction = off_edge(w1, w2);
        return Solved {
            simplex,
            count: 2,
            direction,
        };
    }

    // e13
    if (d13_1 > 0.0) & (d13_2 > 0.0) & (d123_2 <= 0.0) {
        let inv_d13 = 1.0 / (d13_1 + d13_2);
        simplex[0].a = d13_1 * inv_d13;
        simplex[2].a = d13_2 * inv_d13;
        simplex[1] = simplex[2];
        let direction = off_edge(w1, w3);
        return Solved {
            simplex,
            count: 2,
            direction,
        };
    }

    // w2 region
    if (d12_1 <= 0.0) & (d23_2 <= 0.0) {
        simplex[1].a = 1.0;
        simplex[0] = simplex[1];
        let direction = neg(w2);
        return Solved {
            simplex,
            count: 1,
            direction,
        };
    }

    // w3 region
    if (d13_1 <= 0.0) & (d23_1 <= 0.0) {
        simplex[2].a = 1.0;
        simplex[0] = simplex[2];
        let direction = neg(w3);
        return Solved {
            simplex,
            count: 1,
            direction,
        };
    }

    // e23
    if (d23_1 > 0.0) & (d23_2 > 0.0) & (d123_1 <= 0.0) {
        let inv_d23 = 1.0 / (d23_1 + d23_2);
        simplex[1].a = d23_1 * inv_d23;
        simplex[2].a = d23_2 * inv_d23;
        simplex[0] = simplex[2]; // vertex 3 comes first
        let direction = off_edge(w2, w3);
        return Solved {
            simplex,
            count: 2,
            direction,
        };
    }

    // inside
    let inv_d123 = 1.0 / (d123_1 + d123_2 + d123_3);
    simplex[0].a = d123_1 * inv_d123;
    simplex[1].a = d123_2 * inv_d123;
    simplex[2].a = d123_3 * inv_d123;
    let direction = Vector { x: 0.0, y: 0.0 };
    Solved {
        simplex,
        count: 3,
        direction,
    }
}

// What is kept of the first count vertices; one alone is kept as it is, its weight too.
pub fn solve(simplex: [SimplexVertex; 3], count: usize) -> Solved
    ensures { result ≡ Simplex.solve binary64 simplex count }
{
    if count == 1 {
        let v1 = simplex[0];
        let direction = neg(v1.w);
        return Solved {
            simplex,
            count: 1,
            direction,
        };
    }
    if count == 2 {
        return solve_simplex2(simplex);
    }
    solve_simplex3(simplex)
}
