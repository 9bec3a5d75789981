//! The texts of the tests.

/// Six solutions.
pub(crate) const FREE: &str = "var 1..3: x; var 1..2: y; solve satisfy;";

/// No solution, since x has no value.
pub(crate) const CROSSED: &str = "var 1..0: x; var 1..2: y; solve satisfy;";

/// Six pigeons in five holes, no two in one.
pub(crate) const PIGEONS: &str =
    "var 1..5: x0; var 1..5: x1; var 1..5: x2; var 1..5: x3; var 1..5: x4; var 1..5: x5; constraint int_ne(x0,x1);
constraint int_ne(x0,x2); constraint int_ne(x1,x2); constraint int_ne(x0,x3); constraint int_ne(x1,x3);
constraint int_ne(x2,x3); constraint int_ne(x0,x4); constraint int_ne(x1,x4); constraint int_ne(x2,x4);
constraint int_ne(x3,x4); constraint int_ne(x0,x5); constraint int_ne(x1,x5); constraint int_ne(x2,x5);
constraint int_ne(x3,x5); constraint int_ne(x4,x5); solve satisfy;";

/// The same, the least domain first.
pub(crate) const PIGEONS_BY_SIZE: &str =
    "var 1..5: x0; var 1..5: x1; var 1..5: x2; var 1..5: x3; var 1..5: x4; var 1..5: x5; constraint int_ne(x0,x1);
constraint int_ne(x0,x2); constraint int_ne(x1,x2); constraint int_ne(x0,x3); constraint int_ne(x1,x3);
constraint int_ne(x2,x3); constraint int_ne(x0,x4); constraint int_ne(x1,x4); constraint int_ne(x2,x4);
constraint int_ne(x3,x4); constraint int_ne(x0,x5); constraint int_ne(x1,x5); constraint int_ne(x2,x5);
constraint int_ne(x3,x5); constraint int_ne(x4,x5);
solve :: int_search([x0,x1,x2,x3,x4,x5],first_fail,indomain_min,complete) satisfy;";

/// Six queens, in declaration order.
pub(crate) const QUEENS: &str =
    "var 1..6: q0; var 1..6: q1; var 1..6: q2; var 1..6: q3; var 1..6: q4; var 1..6: q5; constraint int_ne(q0,q1);
constraint int_lin_ne([1,-1],[q0,q1],1); constraint int_lin_ne([1,-1],[q0,q1],-1); constraint int_ne(q0,q2);
constraint int_lin_ne([1,-1],[q0,q2],2); constraint int_lin_ne([1,-1],[q0,q2],-2); constraint int_ne(q0,q3);
constraint int_lin_ne([1,-1],[q0,q3],3); constraint int_lin_ne([1,-1],[q0,q3],-3); constraint int_ne(q0,q4);
constraint int_lin_ne([1,-1],[q0,q4],4); constraint int_lin_ne([1,-1],[q0,q4],-4); constraint int_ne(q0,q5);
constraint int_lin_ne([1,-1],[q0,q5],5); constraint int_lin_ne([1,-1],[q0,q5],-5); constraint int_ne(q1,q2);
constraint int_lin_ne([1,-1],[q1,q2],1); constraint int_lin_ne([1,-1],[q1,q2],-1); constraint int_ne(q1,q3);
constraint int_lin_ne([1,-1],[q1,q3],2); constraint int_lin_ne([1,-1],[q1,q3],-2); constraint int_ne(q1,q4);
constraint int_lin_ne([1,-1],[q1,q4],3); constraint int_lin_ne([1,-1],[q1,q4],-3); constraint int_ne(q1,q5);
constraint int_lin_ne([1,-1],[q1,q5],4); constraint int_lin_ne([1,-1],[q1,q5],-4); constraint int_ne(q2,q3);
constraint int_lin_ne([1,-1],[q2,q3],1); constraint int_lin_ne([1,-1],[q2,q3],-1); constraint int_ne(q2,q4);
constraint int_lin_ne([1,-1],[q2,q4],2); constraint int_lin_ne([1,-1],[q2,q4],-2); constraint int_ne(q2,q5);
constraint int_lin_ne([1,-1],[q2,q5],3); constraint int_lin_ne([1,-1],[q2,q5],-3); constraint int_ne(q3,q4);
constraint int_lin_ne([1,-1],[q3,q4],1); constraint int_lin_ne([1,-1],[q3,q4],-1); constraint int_ne(q3,q5);
constraint int_lin_ne([1,-1],[q3,q5],2); constraint int_lin_ne([1,-1],[q3,q5],-2); constraint int_ne(q4,q5);
constraint int_lin_ne([1,-1],[q4,q5],1); constraint int_lin_ne([1,-1],[q4,q5],-1); solve satisfy;";

/// The greatest numbers first.
pub(crate) const QUEENS_FROM_ABOVE: &str =
    "var 1..6: q0; var 1..6: q1; var 1..6: q2; var 1..6: q3; var 1..6: q4; var 1..6: q5; constraint int_ne(q0,q1);
constraint int_lin_ne([1,-1],[q0,q1],1); constraint int_lin_ne([1,-1],[q0,q1],-1); constraint int_ne(q0,q2);
constraint int_lin_ne([1,-1],[q0,q2],2); constraint int_lin_ne([1,-1],[q0,q2],-2); constraint int_ne(q0,q3);
constraint int_lin_ne([1,-1],[q0,q3],3); constraint int_lin_ne([1,-1],[q0,q3],-3); constraint int_ne(q0,q4);
constraint int_lin_ne([1,-1],[q0,q4],4); constraint int_lin_ne([1,-1],[q0,q4],-4); constraint int_ne(q0,q5);
constraint int_lin_ne([1,-1],[q0,q5],5); constraint int_lin_ne([1,-1],[q0,q5],-5); constraint int_ne(q1,q2);
constraint int_lin_ne([1,-1],[q1,q2],1); constraint int_lin_ne([1,-1],[q1,q2],-1); constraint int_ne(q1,q3);
constraint int_lin_ne([1,-1],[q1,q3],2); constraint int_lin_ne([1,-1],[q1,q3],-2); constraint int_ne(q1,q4);
constraint int_lin_ne([1,-1],[q1,q4],3); constraint int_lin_ne([1,-1],[q1,q4],-3); constraint int_ne(q1,q5);
constraint int_lin_ne([1,-1],[q1,q5],4); constraint int_lin_ne([1,-1],[q1,q5],-4); constraint int_ne(q2,q3);
constraint int_lin_ne([1,-1],[q2,q3],1); constraint int_lin_ne([1,-1],[q2,q3],-1); constraint int_ne(q2,q4);
constraint int_lin_ne([1,-1],[q2,q4],2); constraint int_lin_ne([1,-1],[q2,q4],-2); constraint int_ne(q2,q5);
constraint int_lin_ne([1,-1],[q2,q5],3); constraint int_lin_ne([1,-1],[q2,q5],-3); constraint int_ne(q3,q4);
constraint int_lin_ne([1,-1],[q3,q4],1); constraint int_lin_ne([1,-1],[q3,q4],-1); constraint int_ne(q3,q5);
constraint int_lin_ne([1,-1],[q3,q5],2); constraint int_lin_ne([1,-1],[q3,q5],-2); constraint int_ne(q4,q5);
constraint int_lin_ne([1,-1],[q4,q5],1); constraint int_lin_ne([1,-1],[q4,q5],-1);
solve :: int_search([q0,q1,q2,q3,q4,q5],input_order,indomain_max,complete) satisfy;";

/// Upper halves first.
pub(crate) const QUEENS_SPLIT: &str =
    "var 1..7: q0; var 1..7: q1; var 1..7: q2; var 1..7: q3; var 1..7: q4; var 1..7: q5; var 1..7: q6;
constraint int_ne(q0,q1); constraint int_lin_ne([1,-1],[q0,q1],1); constraint int_lin_ne([1,-1],[q0,q1],-1);
constraint int_ne(q0,q2); constraint int_lin_ne([1,-1],[q0,q2],2); constraint int_lin_ne([1,-1],[q0,q2],-2);
constraint int_ne(q0,q3); constraint int_lin_ne([1,-1],[q0,q3],3); constraint int_lin_ne([1,-1],[q0,q3],-3);
constraint int_ne(q0,q4); constraint int_lin_ne([1,-1],[q0,q4],4); constraint int_lin_ne([1,-1],[q0,q4],-4);
constraint int_ne(q0,q5); constraint int_lin_ne([1,-1],[q0,q5],5); constraint int_lin_ne([1,-1],[q0,q5],-5);
constraint int_ne(q0,q6); constraint int_lin_ne([1,-1],[q0,q6],6); constraint int_lin_ne([1,-1],[q0,q6],-6);
constraint int_ne(q1,q2); constraint int_lin_ne([1,-1],[q1,q2],1); constraint int_lin_ne([1,-1],[q1,q2],-1);
constraint int_ne(q1,q3); constraint int_lin_ne([1,-1],[q1,q3],2); constraint int_lin_ne([1,-1],[q1,q3],-2);
constraint int_ne(q1,q4); constraint int_lin_ne([1,-1],[q1,q4],3); constraint int_lin_ne([1,-1],[q1,q4],-3);
constraint int_ne(q1,q5); constraint int_lin_ne([1,-1],[q1,q5],4); constraint int_lin_ne([1,-1],[q1,q5],-4);
constraint int_ne(q1,q6); constraint int_lin_ne([1,-1],[q1,q6],5); constraint int_lin_ne([1,-1],[q1,q6],-5);
constraint int_ne(q2,q3); constraint int_lin_ne([1,-1],[q2,q3],1); constraint int_lin_ne([1,-1],[q2,q3],-1);
constraint int_ne(q2,q4); constraint int_lin_ne([1,-1],[q2,q4],2); constraint int_lin_ne([1,-1],[q2,q4],-2);
constraint int_ne(q2,q5); constraint int_lin_ne([1,-1],[q2,q5],3); constraint int_lin_ne([1,-1],[q2,q5],-3);
constraint int_ne(q2,q6); constraint int_lin_ne([1,-1],[q2,q6],4); constraint int_lin_ne([1,-1],[q2,q6],-4);
constraint int_ne(q3,q4); constraint int_lin_ne([1,-1],[q3,q4],1); constraint int_lin_ne([1,-1],[q3,q4],-1);
constraint int_ne(q3,q5); constraint int_lin_ne([1,-1],[q3,q5],2); constraint int_lin_ne([1,-1],[q3,q5],-2);
constraint int_ne(q3,q6); constraint int_lin_ne([1,-1],[q3,q6],3); constraint int_lin_ne([1,-1],[q3,q6],-3);
constraint int_ne(q4,q5); constraint int_lin_ne([1,-1],[q4,q5],1); constraint int_lin_ne([1,-1],[q4,q5],-1);
constraint int_ne(q4,q6); constraint int_lin_ne([1,-1],[q4,q6],2); constraint int_lin_ne([1,-1],[q4,q6],-2);
constraint int_ne(q5,q6); constraint int_lin_ne([1,-1],[q5,q6],1); constraint int_lin_ne([1,-1],[q5,q6],-1);
solve :: int_search([q0,q1,q2,q3,q4,q5,q6],input_order,indomain_reverse_split,complete) satisfy;";

/// The least domain first.
pub(crate) const QUEENS_BY_SIZE: &str =
    "var 1..7: q0; var 1..7: q1; var 1..7: q2; var 1..7: q3; var 1..7: q4; var 1..7: q5; var 1..7: q6;
constraint int_ne(q0,q1); constraint int_lin_ne([1,-1],[q0,q1],1); constraint int_lin_ne([1,-1],[q0,q1],-1);
constraint int_ne(q0,q2); constraint int_lin_ne([1,-1],[q0,q2],2); constraint int_lin_ne([1,-1],[q0,q2],-2);
constraint int_ne(q0,q3); constraint int_lin_ne([1,-1],[q0,q3],3); constraint int_lin_ne([1,-1],[q0,q3],-3);
constraint int_ne(q0,q4); constraint int_lin_ne([1,-1],[q0,q4],4); constraint int_lin_ne([1,-1],[q0,q4],-4);
constraint int_ne(q0,q5); constraint int_lin_ne([1,-1],[q0,q5],5); constraint int_lin_ne([1,-1],[q0,q5],-5);
constraint int_ne(q0,q6); constraint int_lin_ne([1,-1],[q0,q6],6); constraint int_lin_ne([1,-1],[q0,q6],-6);
constraint int_ne(q1,q2); constraint int_lin_ne([1,-1],[q1,q2],1); constraint int_lin_ne([1,-1],[q1,q2],-1);
constraint int_ne(q1,q3); constraint int_lin_ne([1,-1],[q1,q3],2); constraint int_lin_ne([1,-1],[q1,q3],-2);
constraint int_ne(q1,q4); constraint int_lin_ne([1,-1],[q1,q4],3); constraint int_lin_ne([1,-1],[q1,q4],-3);
constraint int_ne(q1,q5); constraint int_lin_ne([1,-1],[q1,q5],4); constraint int_lin_ne([1,-1],[q1,q5],-4);
constraint int_ne(q1,q6); constraint int_lin_ne([1,-1],[q1,q6],5); constraint int_lin_ne([1,-1],[q1,q6],-5);
constraint int_ne(q2,q3); constraint int_lin_ne([1,-1],[q2,q3],1); constraint int_lin_ne([1,-1],[q2,q3],-1);
constraint int_ne(q2,q4); constraint int_lin_ne([1,-1],[q2,q4],2); constraint int_lin_ne([1,-1],[q2,q4],-2);
constraint int_ne(q2,q5); constraint int_lin_ne([1,-1],[q2,q5],3); constraint int_lin_ne([1,-1],[q2,q5],-3);
constraint int_ne(q2,q6); constraint int_lin_ne([1,-1],[q2,q6],4); constraint int_lin_ne([1,-1],[q2,q6],-4);
constraint int_ne(q3,q4); constraint int_lin_ne([1,-1],[q3,q4],1); constraint int_lin_ne([1,-1],[q3,q4],-1);
constraint int_ne(q3,q5); constraint int_lin_ne([1,-1],[q3,q5],2); constraint int_lin_ne([1,-1],[q3,q5],-2);
constraint int_ne(q3,q6); constraint int_lin_ne([1,-1],[q3,q6],3); constraint int_lin_ne([1,-1],[q3,q6],-3);
constraint int_ne(q4,q5); constraint int_lin_ne([1,-1],[q4,q5],1); constraint int_lin_ne([1,-1],[q4,q5],-1);
constraint int_ne(q4,q6); constraint int_lin_ne([1,-1],[q4,q6],2); constraint int_lin_ne([1,-1],[q4,q6],-2);
constraint int_ne(q5,q6); constraint int_lin_ne([1,-1],[q5,q6],1); constraint int_lin_ne([1,-1],[q5,q6],-1);
solve :: int_search([q0,q1,q2,q3,q4,q5,q6],first_fail,indomain_split,complete) satisfy;";

/// A constant, which all solutions have.
pub(crate) const CONSTANT: &str =
    "var 1..3: x; var 1..2: y; constraint int_lt(x,y); solve minimize 4;";

/// No solution.
pub(crate) const NO_LEAST: &str =
    "var 1..2: x; var 1..2: y; constraint int_lt(x,y); constraint int_lt(y,x); solve minimize y;";

/// A knapsack, in declaration order.
pub(crate) const KNAPSACK: &str =
    "var 0..2: k0; var 0..2: k1; var 0..2: k2; var 0..2: k3; var 0..2: k4; var 0..2: k5; var 0..2: k6; var 0..200: worth;
constraint int_lin_le([5,7,4,9,6,8,3],[k0,k1,k2,k3,k4,k5,k6],31);
constraint int_lin_eq([8,12,7,15,9,13,4,-1],[k0,k1,k2,k3,k4,k5,k6,worth],0); solve maximize worth;";

/// The greatest numbers first.
pub(crate) const KNAPSACK_FROM_ABOVE: &str =
    "var 0..2: k0; var 0..2: k1; var 0..2: k2; var 0..2: k3; var 0..2: k4; var 0..2: k5; var 0..2: k6; var 0..200: worth;
constraint int_lin_le([5,7,4,9,6,8,3],[k0,k1,k2,k3,k4,k5,k6],31);
constraint int_lin_eq([8,12,7,15,9,13,4,-1],[k0,k1,k2,k3,k4,k5,k6,worth],0);
solve :: int_search([k0,k1,k2,k3,k4,k5,k6],input_order,indomain_max,complete) maximize worth;";

/// The greatest domain first.
pub(crate) const KNAPSACK_BY_SIZE: &str =
    "var 0..2: k0; var 0..2: k1; var 0..2: k2; var 0..2: k3; var 0..2: k4; var 0..2: k5; var 0..2: k6; var 0..200: worth;
constraint int_lin_le([5,7,4,9,6,8,3],[k0,k1,k2,k3,k4,k5,k6],31);
constraint int_lin_eq([8,12,7,15,9,13,4,-1],[k0,k1,k2,k3,k4,k5,k6,worth],0);
solve :: int_search([k0,k1,k2,k3,k4,k5,k6],largest,indomain_max,complete) maximize worth;";

/// Four jobs on two machines.
pub(crate) const SHOP: &str =
    "var 0..14: a0; var 0..14: b0; var 0..14: a1; var 0..14: b1; var 0..14: a2; var 0..14: b2; var 0..14: a3;
var 0..14: b3; var 0..18: end; var bool: p0; var bool: r0; var bool: p1; var bool: r1; var bool: p2; var bool: r2;
var bool: p3; var bool: r3; var bool: p4; var bool: r4; var bool: p5; var bool: r5; var bool: p6; var bool: r6;
var bool: p7; var bool: r7; var bool: p8; var bool: r8; var bool: p9; var bool: r9; var bool: p10; var bool: r10;
var bool: p11; var bool: r11; constraint int_lin_le([1,-1],[a0,b0],-3); constraint int_lin_le([1,-1],[b0,end],-2);
constraint int_lin_le([1,-1],[a1,b1],-2); constraint int_lin_le([1,-1],[b1,end],-4);
constraint int_lin_le([1,-1],[a2,b2],-4); constraint int_lin_le([1,-1],[b2,end],-1);
constraint int_lin_le([1,-1],[a3,b3],-1); constraint int_lin_le([1,-1],[b3,end],-3);
constraint int_lin_le_reif([1,-1],[a0,a1],-3,p0); constraint int_lin_le_reif([1,-1],[a1,a0],-2,r0);
constraint bool_clause([p0,r0],[]); constraint int_lin_le_reif([1,-1],[b0,b1],-2,p1);
constraint int_lin_le_reif([1,-1],[b1,b0],-4,r1); constraint bool_clause([p1,r1],[]);
constraint int_lin_le_reif([1,-1],[a0,a2],-3,p2); constraint int_lin_le_reif([1,-1],[a2,a0],-4,r2);
constraint bool_clause([p2,r2],[]); constraint int_lin_le_reif([1,-1],[b0,b2],-2,p3);
constraint int_lin_le_reif([1,-1],[b2,b0],-1,r3); constraint bool_clause([p3,r3],[]);
constraint int_lin_le_reif([1,-1],[a0,a3],-3,p4); constraint int_lin_le_reif([1,-1],[a3,a0],-1,r4);
constraint bool_clause([p4,r4],[]); constraint int_lin_le_reif([1,-1],[b0,b3],-2,p5);
constraint int_lin_le_reif([1,-1],[b3,b0],-3,r5); constraint bool_clause([p5,r5],[]);
constraint int_lin_le_reif([1,-1],[a1,a2],-2,p6); constraint int_lin_le_reif([1,-1],[a2,a1],-4,r6);
constraint bool_clause([p6,r6],[]); constraint int_lin_le_reif([1,-1],[b1,b2],-4,p7);
constraint int_lin_le_reif([1,-1],[b2,b1],-1,r7); constraint bool_clause([p7,r7],[]);
constraint int_lin_le_reif([1,-1],[a1,a3],-2,p8); constraint int_lin_le_reif([1,-1],[a3,a1],-1,r8);
constraint bool_clause([p8,r8],[]); constraint int_lin_le_reif([1,-1],[b1,b3],-4,p9);
constraint int_lin_le_reif([1,-1],[b3,b1],-3,r9); constraint bool_clause([p9,r9],[]);
constraint int_lin_le_reif([1,-1],[a2,a3],-4,p10); constraint int_lin_le_reif([1,-1],[a3,a2],-1,r10);
constraint bool_clause([p10,r10],[]); constraint int_lin_le_reif([1,-1],[b2,b3],-1,p11);
constraint int_lin_le_reif([1,-1],[b3,b2],-3,r11); constraint bool_clause([p11,r11],[]); solve minimize end;";

/// The least start first.
pub(crate) const SHOP_BY_START: &str =
    "var 0..14: a0; var 0..14: b0; var 0..14: a1; var 0..14: b1; var 0..14: a2; var 0..14: b2; var 0..14: a3;
var 0..14: b3; var 0..18: end; var bool: p0; var bool: r0; var bool: p1; var bool: r1; var bool: p2; var bool: r2;
var bool: p3; var bool: r3; var bool: p4; var bool: r4; var bool: p5; var bool: r5; var bool: p6; var bool: r6;
var bool: p7; var bool: r7; var bool: p8; var bool: r8; var bool: p9; var bool: r9; var bool: p10; var bool: r10;
var bool: p11; var bool: r11; constraint int_lin_le([1,-1],[a0,b0],-3); constraint int_lin_le([1,-1],[b0,end],-2);
constraint int_lin_le([1,-1],[a1,b1],-2); constraint int_lin_le([1,-1],[b1,end],-4);
constraint int_lin_le([1,-1],[a2,b2],-4); constraint int_lin_le([1,-1],[b2,end],-1);
constraint int_lin_le([1,-1],[a3,b3],-1); constraint int_lin_le([1,-1],[b3,end],-3);
constraint int_lin_le_reif([1,-1],[a0,a1],-3,p0); constraint int_lin_le_reif([1,-1],[a1,a0],-2,r0);
constraint bool_clause([p0,r0],[]); constraint int_lin_le_reif([1,-1],[b0,b1],-2,p1);
constraint int_lin_le_reif([1,-1],[b1,b0],-4,r1); constraint bool_clause([p1,r1],[]);
constraint int_lin_le_reif([1,-1],[a0,a2],-3,p2); constraint int_lin_le_reif([1,-1],[a2,a0],-4,r2);
constraint bool_clause([p2,r2],[]); constraint int_lin_le_reif([1,-1],[b0,b2],-2,p3);
constraint int_lin_le_reif([1,-1],[b2,b0],-1,r3); constraint bool_clause([p3,r3],[]);
constraint int_lin_le_reif([1,-1],[a0,a3],-3,p4); constraint int_lin_le_reif([1,-1],[a3,a0],-1,r4);
constraint bool_clause([p4,r4],[]); constraint int_lin_le_reif([1,-1],[b0,b3],-2,p5);
constraint int_lin_le_reif([1,-1],[b3,b0],-3,r5); constraint bool_clause([p5,r5],[]);
constraint int_lin_le_reif([1,-1],[a1,a2],-2,p6); constraint int_lin_le_reif([1,-1],[a2,a1],-4,r6);
constraint bool_clause([p6,r6],[]); constraint int_lin_le_reif([1,-1],[b1,b2],-4,p7);
constraint int_lin_le_reif([1,-1],[b2,b1],-1,r7); constraint bool_clause([p7,r7],[]);
constraint int_lin_le_reif([1,-1],[a1,a3],-2,p8); constraint int_lin_le_reif([1,-1],[a3,a1],-1,r8);
constraint bool_clause([p8,r8],[]); constraint int_lin_le_reif([1,-1],[b1,b3],-4,p9);
constraint int_lin_le_reif([1,-1],[b3,b1],-3,r9); constraint bool_clause([p9,r9],[]);
constraint int_lin_le_reif([1,-1],[a2,a3],-4,p10); constraint int_lin_le_reif([1,-1],[a3,a2],-1,r10);
constraint bool_clause([p10,r10],[]); constraint int_lin_le_reif([1,-1],[b2,b3],-1,p11);
constraint int_lin_le_reif([1,-1],[b3,b2],-3,r11); constraint bool_clause([p11,r11],[]);
solve :: int_search([a0,b0,a1,b1,a2,b2,a3,b3],smallest,indomain_min,complete) minimize end;";
