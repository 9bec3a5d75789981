//! The texts of the tests: small ones that have no solution, each by propagators of another kind.

/// Eight free Booleans, and behind them three variables of two values, no two alike.
pub(crate) const CORE: &str =
    "var bool: f0; var bool: f1; var bool: f2; var bool: f3; var bool: f4; var bool: f5; var bool: f6; var bool: f7;
var 0..1: a; var 0..1: b; var 0..1: c; constraint int_ne(a,b); constraint int_ne(b,c); constraint int_ne(a,c); solve satisfy;";

/// Five pigeons in four holes, no two in one.
pub(crate) const PIGEONS: &str =
    "var 1..4: x0; var 1..4: x1; var 1..4: x2; var 1..4: x3; var 1..4: x4;
constraint int_ne(x1,x0); constraint int_ne(x2,x0); constraint int_ne(x2,x1); constraint int_ne(x3,x0); constraint int_ne(x3,x1);
constraint int_ne(x3,x2); constraint int_ne(x4,x0); constraint int_ne(x4,x1); constraint int_ne(x4,x2); constraint int_ne(x4,x3); solve satisfy;";

/// Eight terms that a sum has room for, and behind them three that it has none for.
pub(crate) const SLACK: &str =
    "var 0..1: f0; var 0..1: f1; var 0..1: f2; var 0..1: f3; var 0..1: f4; var 0..1: f5; var 0..1: f6; var 0..1: f7;
var 0..3: a; var 0..3: b; var 0..3: c; constraint int_lin_le([1,1,1,1,1,1,1,1,20,20,20],[f0,f1,f2,f3,f4,f5,f6,f7,a,b,c],110);
constraint int_lin_le([-1,-1],[a,b],-4); constraint int_lin_le([-1,-1],[b,c],-4); constraint int_lin_le([-1,-1],[a,c],-4); solve satisfy;";

/// Eight free Booleans, and behind them three that clauses leave no value.
pub(crate) const CLAUSES: &str =
    "var bool: f0; var bool: f1; var bool: f2; var bool: f3; var bool: f4; var bool: f5; var bool: f6; var bool: f7;
var bool: p; var bool: q; var bool: r; constraint bool_clause([p,q],[]); constraint bool_clause([p],[q]); constraint bool_clause([q],[p]);
constraint bool_clause([r],[p,q]); constraint bool_clause([],[p,q,r]); solve satisfy;";

/// Eight free Booleans, and behind them two lists of which no place has the sum that is asked for.
pub(crate) const ELEMENTS: &str =
    "var bool: f0; var bool: f1; var bool: f2; var bool: f3; var bool: f4; var bool: f5; var bool: f6; var bool: f7;
var 1..4: x; var 1..9: a; var 1..9: b; constraint array_int_element(x,[1,5,9,3],a); constraint array_int_element(x,[2,8,1,6],b);
constraint int_lin_eq([1,1],[a,b],7); solve satisfy;";

/// Eight free Booleans, and behind them two factors of a sum, and a product that they can't have.
pub(crate) const PRODUCTS: &str =
    "var bool: f0; var bool: f1; var bool: f2; var bool: f3; var bool: f4; var bool: f5; var bool: f6; var bool: f7;
var 2..9: x; var 2..9: y; var 4..81: z; constraint int_times(x,y,z); constraint int_lin_eq([1,1],[x,y],11);
constraint set_in(z,{19,21,23,25,26,27,29}); solve satisfy;";

/// Eight free Booleans, and behind them the greatest and the least of two numbers of an odd sum, in an even distance.
pub(crate) const EXTREMES: &str =
    "var bool: f0; var bool: f1; var bool: f2; var bool: f3; var bool: f4; var bool: f5; var bool: f6; var bool: f7;
var 0..9: x; var 0..9: y; var 0..9: m; var 0..9: n; constraint int_max(x,y,m); constraint int_min(x,y,n); constraint int_lin_eq([1,1],[x,y],9);
constraint int_lin_eq([1,-1],[m,n],4); solve satisfy;";

/// Eight free Booleans, and behind them six numbers, no two alike, in two sums that are too small.
pub(crate) const DIFFERENT: &str =
    "var bool: f0; var bool: f1; var bool: f2; var bool: f3; var bool: f4; var bool: f5; var bool: f6; var bool: f7;
var 1..6: a; var 1..6: b; var 1..6: c; var 1..6: d; var 1..6: e; var 1..6: f; constraint pccp_all_different([a,b,c,d,e,f]);
constraint int_lin_le([1,1,1],[a,b,c],9); constraint int_lin_le([1,1,1],[d,e,f],11); solve satisfy;";

/// Eight free Booleans, and behind them five tasks in less time than they take, two at once.
pub(crate) const CROWDED: &str =
    "var bool: f0; var bool: f1; var bool: f2; var bool: f3; var bool: f4; var bool: f5; var bool: f6; var bool: f7;
var 0..3: a; var 0..3: b; var 0..3: c; var 0..3: d; var 0..3: e; constraint pccp_cumulative([a,b,c,d,e],[3,3,3,3,3],[2,2,2,2,2],4);
solve satisfy;";

/// Eight free Booleans, and behind them four tasks on one machine, in one unit of time too few.
pub(crate) const MACHINE: &str =
    "var bool: f0; var bool: f1; var bool: f2; var bool: f3; var bool: f4; var bool: f5; var bool: f6; var bool: f7;
var 0..10: s0; var 0..9: s1; var 0..8: s2; var 0..11: s3; var bool: p0; var bool: q0; var bool: p1; var bool: q1; var bool: p2; var bool: q2;
var bool: p3; var bool: q3; var bool: p4; var bool: q4; var bool: p5; var bool: q5;
constraint int_lin_le_reif([1,-1],[s0,s1],-3,p0); constraint int_lin_le_reif([1,-1],[s1,s0],-4,q0);
constraint bool_clause([p0,q0],[]);
constraint int_lin_le_reif([1,-1],[s0,s2],-3,p1); constraint int_lin_le_reif([1,-1],[s2,s0],-5,q1);
constraint bool_clause([p1,q1],[]);
constraint int_lin_le_reif([1,-1],[s0,s3],-3,p2); constraint int_lin_le_reif([1,-1],[s3,s0],-2,q2);
constraint bool_clause([p2,q2],[]);
constraint int_lin_le_reif([1,-1],[s1,s2],-4,p3); constraint int_lin_le_reif([1,-1],[s2,s1],-5,q3);
constraint bool_clause([p3,q3],[]);
constraint int_lin_le_reif([1,-1],[s1,s3],-4,p4); constraint int_lin_le_reif([1,-1],[s3,s1],-2,q4);
constraint bool_clause([p4,q4],[]);
constraint int_lin_le_reif([1,-1],[s2,s3],-5,p5); constraint int_lin_le_reif([1,-1],[s3,s2],-2,q5);
constraint bool_clause([p5,q5],[]); solve satisfy;";

/// The same with one unit of time more, which suffices.
pub(crate) const WIDER_MACHINE: &str =
    "var bool: f0; var bool: f1; var bool: f2; var bool: f3; var bool: f4; var bool: f5; var bool: f6; var bool: f7;
var 0..11: s0; var 0..10: s1; var 0..9: s2; var 0..12: s3; var bool: p0; var bool: q0; var bool: p1; var bool: q1; var bool: p2; var bool: q2;
var bool: p3; var bool: q3; var bool: p4; var bool: q4; var bool: p5; var bool: q5;
constraint int_lin_le_reif([1,-1],[s0,s1],-3,p0); constraint int_lin_le_reif([1,-1],[s1,s0],-4,q0);
constraint bool_clause([p0,q0],[]);
constraint int_lin_le_reif([1,-1],[s0,s2],-3,p1); constraint int_lin_le_reif([1,-1],[s2,s0],-5,q1);
constraint bool_clause([p1,q1],[]);
constraint int_lin_le_reif([1,-1],[s0,s3],-3,p2); constraint int_lin_le_reif([1,-1],[s3,s0],-2,q2);
constraint bool_clause([p2,q2],[]);
constraint int_lin_le_reif([1,-1],[s1,s2],-4,p3); constraint int_lin_le_reif([1,-1],[s2,s1],-5,q3);
constraint bool_clause([p3,q3],[]);
constraint int_lin_le_reif([1,-1],[s1,s3],-4,p4); constraint int_lin_le_reif([1,-1],[s3,s1],-2,q4);
constraint bool_clause([p4,q4],[]);
constraint int_lin_le_reif([1,-1],[s2,s3],-5,p5); constraint int_lin_le_reif([1,-1],[s3,s2],-2,q5);
constraint bool_clause([p5,q5],[]); solve satisfy;";
